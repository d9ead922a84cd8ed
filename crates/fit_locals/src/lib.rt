// The locals that must differ where a pattern fits: those of the bindings that have one, and the place's root.
#![tactic(auto)]

ghost use Rattle.std.specs.Prelude.{◌≡◌, drop};
ghost use Rattle.image.specs.Lists.{member, distinct};
ghost use Rattle.meaning.specs.Fit.{present, locals_differ};

use place::LocalId;

// The local l is that of a binding, from the binding `from` on. 65535 is that of none.
fn stands_from(bindings: &[u16], from: usize, l: LocalId) -> bool
    ensures { result ≡ member l.0 (present (drop from bindings.now)) }
{
    l.0 != 65535 && bindings.iter().skip(from).any(|b| *b == l.0)
}

// Those of the bindings differ.
fn bindings_differ(bindings: &[u16]) -> bool
    ensures { result ≡ distinct (present bindings.now) }
{
    for (i, b) in bindings.iter().enumerate() {
        if stands_from(bindings, i + 1, LocalId(*b)) {
            return false;
        }
    }
    true
}

// All differ.
pub fn locals_differ(bindings: &[u16], root: LocalId) -> bool
    ensures { result ≡ locals_differ bindings.now root.0 }
{
    !stands_from(bindings, 0, root) && bindings_differ(bindings)
}
