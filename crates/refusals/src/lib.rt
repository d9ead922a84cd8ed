// Why a lowering is refused, once image and call have been found good.
#![tactic(auto)]

#[derive(Clone, Copy)]
pub enum MirLowerError {
    // Missing, Rest or NotNull is reached.
    IncompletePattern,
    // The reason: 1 tuple, 2 array or slice, 3 reference, 4 not an ADT, 5 another ADT, 6 union.
    TypeError(u16),
    // A Record's field is absent, or past its variant's fields.
    UnresolvedField,
    NotSupported,
    // An ellipsis beyond the arguments.
    Ellipsis,
    // A temporary of slice type.
    UnsizedTemporary,
    // A binding has no local.
    InaccessibleLocal,
    // Expr is reached.
    Expr,
    // A limit of body, scopes or place is passed.
    Limit,
    // A place's type is needed, and a projection does not apply.
    PlaceType,
    // A path is unresolved.
    UnresolvedName,
    // No scope is open where one is needed, or there are fewer than an index says.
    NoScope,
}
