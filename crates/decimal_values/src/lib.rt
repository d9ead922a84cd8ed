// The value of a decimal integer, in 16 bytes or over.
#![tactic(auto)]

ghost use Rattle.std.specs.Prelude.{◌≡◌, ◌+◌, ◌*◌, ◌<◌, ◌^◌};
ghost use Rattle.decimal_values.specs.Values.{integer_value};

use pattern_words::words::is_digit;

// Eight bytes and what is carried over.
#[derive(Clone, Copy)]
struct Carried {
    half: u64,
    carry: u64,
}

// Ten times a half, and so much more.
fn times_ten(half: u64, plus: u64) -> Carried
    requires { plus < 16 }
    ensures { (result.carry * 2 ^ 64 + result.half ≡ half * 10 + plus) × ((result.carry < 16) × (result.half < 2 ^ 64)) }
{
    let low = half % 0x1_0000_0000 * 10 + plus;
    let high = half / 0x1_0000_0000 * 10 + low / 0x1_0000_0000;
    Carried {
        half: high % 0x1_0000_0000 * 0x1_0000_0000 + low % 0x1_0000_0000,
        carry: high / 0x1_0000_0000,
    }
}

// The value of the integer whose digits stand between two positions of a text, in two halves, the low one first; none where 16 bytes do not hold it.
pub fn integer_value(text: &[u8], from: usize, to: usize) -> Option<(u64, u64)>
    ensures { result ≡ integer_value text.now from to }
{
    let mut low: u64 = 0;
    let mut high: u64 = 0;
    for at in from..to.min(text.len()) {
        let b = text[at];
        if !is_digit(b) {
            continue;
        }
        let lower = times_ten(low, (b - b'0') as u64);
        let upper = times_ten(high, lower.carry);
        if upper.carry != 0 {
            return None;
        }
        low = lower.half;
        high = upper.half;
    }
    Some((low, high))
}
