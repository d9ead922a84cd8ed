// How a name binds by its marks, and its annotation.
#![tactic(auto)]

ghost use Rattle.std.specs.Prelude.{◌≡◌};
ghost use Rattle.name_modes.specs.Modes.{mode_word, annotation_word};

// How a name with these marks binds: by the default mode, by reference, by value, by mutable reference.
pub fn mode_of(more: u16, mode: u16) -> u16
    ensures { result ≡ mode_word more mode }
{
    match more {
        0 => mode,
        1 => 1,
        3 => 2,
        _ => 0,
    }
}

// Its annotation: none, `mut`, or `ref`.
pub fn annotation_of(more: u16) -> u16
    ensures { result ≡ annotation_word more }
{
    match more {
        0 => 0,
        1 => 2,
        3 => 2,
        _ => 1,
    }
}
