// The first position that is refused.
ghost use Rattle.std.specs.Prelude.{◌≡◌};
ghost use Rattle.pattern_typing.specs.Failing.{earlier};
ghost use Rattle.name_resolving.specs.Gives.{refused_of};

// The first of two positions in the text, where there are any.
pub fn first_refused(own: Option<u16>, other: Option<u16>) -> Option<u16>
    ensures { refused_of result ≡ earlier (refused_of own) (refused_of other) }
{
    match own {
        None => other,
        Some(a) => {
            match other {
                None => Some(a),
                Some(b) => {
                    if b < a {
                        return Some(b);
                    }
                    Some(a)
                }
            }
        }
    }
}
