// Unicode scalar values, of which a char is one.
#![tactic(auto)]

ghost use Rattle.std.specs.Prelude.{◌≡◌};
ghost use Rattle.image.specs.Operands.{is_scalar_value};

// Below 0x110000, and no surrogate.
pub fn is_scalar_value(code: u32) -> bool
    ensures { result ≡ is_scalar_value code }
{
    if code < 0xd800 {
        return true;
    }
    if code < 0xe000 {
        return false;
    }
    code < 0x110000
}
