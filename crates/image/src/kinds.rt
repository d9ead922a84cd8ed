// The kinds of document 01's section "The image", by name. A number that is no kind is `Unknown`.
ghost use Rattle.std.specs.Prelude.{◌≡◌};
ghost use Rattle.image.specs.Kinds.{type_kind, adt_kind, pat_kind, path_kind, operand_kind, binding_mode, binding_annotation};

#[derive(Clone, Copy)]
pub enum TypeKind {
    Integer,
    Bool,
    Char,
    Str,
    Tuple,
    Adt,
    Reference,
    Array,
    Slice,
    Unknown,
}

#[derive(Clone, Copy)]
pub enum AdtKind {
    Struct,
    Enum,
    Union,
    Unknown,
}

#[derive(Clone, Copy)]
pub enum PatKind {
    Missing,
    Rest,
    NotNull,
    Wild,
    Tuple,
    Or,
    Record,
    Range,
    Slice,
    Path,
    Lit,
    Bind,
    TupleStruct,
    Ref,
    Expr,
    Box,
    Deref,
    Unknown,
}

#[derive(Clone, Copy)]
pub enum PathKind {
    Unresolved,
    Variant,
    Local,
    Constant,
    Other,
    Unknown,
}

#[derive(Clone, Copy)]
pub enum OperandKind {
    Int,
    Uint,
    Char,
    Bool,
    Str,
    CStr,
    ByteStr,
    Constant,
    Float,
    Other,
    Unknown,
}

// How a Bind binds: the value, or a reference to its place.
#[derive(Clone, Copy)]
pub enum BindingMode {
    Value,
    Ref,
    RefMut,
    Unknown,
}

#[derive(Clone, Copy)]
pub enum BindingAnnotation {
    Unannotated,
    Mutable,
    Other,
    Unknown,
}

impl From<u16> for TypeKind {
    ghost from_gives = { λ kind made. made ≡ type_kind kind };

    fn from(kind: u16) -> TypeKind {
        match kind {
            1 => TypeKind::Integer,
            2 => TypeKind::Bool,
            3 => TypeKind::Char,
            4 => TypeKind::Str,
            5 => TypeKind::Tuple,
            6 => TypeKind::Adt,
            7 => TypeKind::Reference,
            8 => TypeKind::Array,
            9 => TypeKind::Slice,
            _ => TypeKind::Unknown,
        }
    }
}

impl From<u16> for AdtKind {
    ghost from_gives = { λ kind made. made ≡ adt_kind kind };

    fn from(kind: u16) -> AdtKind {
        match kind {
            0 => AdtKind::Struct,
            1 => AdtKind::Enum,
            2 => AdtKind::Union,
            _ => AdtKind::Unknown,
        }
    }
}

impl From<u16> for PatKind {
    ghost from_gives = { λ kind made. made ≡ pat_kind kind };

    fn from(kind: u16) -> PatKind {
        match kind {
            0 => PatKind::Missing,
            1 => PatKind::Rest,
            2 => PatKind::NotNull,
            3 => PatKind::Wild,
            4 => PatKind::Tuple,
            5 => PatKind::Or,
            6 => PatKind::Record,
            7 => PatKind::Range,
            8 => PatKind::Slice,
            9 => PatKind::Path,
            10 => PatKind::Lit,
            11 => PatKind::Bind,
            12 => PatKind::TupleStruct,
            13 => PatKind::Ref,
            14 => PatKind::Expr,
            15 => PatKind::Box,
            16 => PatKind::Deref,
            _ => PatKind::Unknown,
        }
    }
}

impl From<u16> for PathKind {
    ghost from_gives = { λ kind made. made ≡ path_kind kind };

    fn from(kind: u16) -> PathKind {
        match kind {
            0 => PathKind::Unresolved,
            1 => PathKind::Variant,
            2 => PathKind::Local,
            3 => PathKind::Constant,
            4 => PathKind::Other,
            _ => PathKind::Unknown,
        }
    }
}

impl From<u16> for OperandKind {
    ghost from_gives = { λ kind made. made ≡ operand_kind kind };

    fn from(kind: u16) -> OperandKind {
        match kind {
            1 => OperandKind::Int,
            2 => OperandKind::Uint,
            3 => OperandKind::Char,
            4 => OperandKind::Bool,
            5 => OperandKind::Str,
            6 => OperandKind::CStr,
            7 => OperandKind::ByteStr,
            8 => OperandKind::Constant,
            9 => OperandKind::Float,
            10 => OperandKind::Other,
            _ => OperandKind::Unknown,
        }
    }
}

impl From<u16> for BindingMode {
    ghost from_gives = { λ mode made. made ≡ binding_mode mode };

    fn from(mode: u16) -> BindingMode {
        match mode {
            0 => BindingMode::Value,
            1 => BindingMode::Ref,
            2 => BindingMode::RefMut,
            _ => BindingMode::Unknown,
        }
    }
}

impl From<u16> for BindingAnnotation {
    ghost from_gives = { λ annotation made. made ≡ binding_annotation annotation };

    fn from(annotation: u16) -> BindingAnnotation {
        match annotation {
            0 => BindingAnnotation::Unannotated,
            1 => BindingAnnotation::Mutable,
            2 => BindingAnnotation::Other,
            _ => BindingAnnotation::Unknown,
        }
    }
}
