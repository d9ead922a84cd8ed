// An integer's 16 bytes, as two halves, in the range of an integer type.
ghost use Rattle.std.specs.Prelude.{◌≡◌, true, length};
ghost use Rattle.image.specs.Integers.{in_range, integer_value};
ghost use Rattle.image.specs.Rules.{is_integer_size, type_shape_holds};
ghost use Rattle.image.specs.Types.{shape_by};
ghost use Rattle.meaning.specs.Fit.{integer_fits};

use image::kinds::TypeKind;
use image::rows::TypeRow;
use integer_rows::{negative_in_range, positive_in_range};
use literals::half;

// The number of 16 bytes, which are two's complement where it may be negative.
fn in_range(size: u16, signed: bool, negative: bool, bytes: &[u8]) -> bool
    requires { (is_integer_size size ≡ true) × (length bytes.now ≡ 16) }
    ensures { result ≡ in_range size signed (integer_value negative bytes.now) }
{
    let low = half(bytes, 0, 8);
    let high = half(bytes, 8, 8);
    if negative && 0x8000000000000000 <= high {
        return negative_in_range(size, signed, low, high);
    }
    positive_in_range(size, signed, low, high)
}

// An integer of the type of a row.
pub fn integer_fits(
    image: &[u8],
    row: TypeRow,
    kind: TypeKind,
    negative: bool,
    bytes: &[u8],
) -> bool
    requires { (type_shape_holds kind image.now row ≡ true) × (length bytes.now ≡ 16) }
    ensures { result ≡ integer_fits (shape_by kind image.now row) negative bytes.now }
{
    match kind {
        TypeKind::Integer => in_range(row.a, row.b == 1, negative, bytes),
        _ => false,
    }
}
