// The integers in ten rows: 0 to 4 signed, 5 to 9 unsigned, at 1, 2, 4, 8 and 16 bytes. Each row has its size, its least and its greatest value.
// A value is 16 bytes, two's complement: i8's least is 80 ff .. ff, its greatest 7f 00 .. 00. The table has the lower eight of them as one number, and the upper eight.
#![tactic(auto)]

ghost use Rattle.std.specs.Prelude.{◌≡◌, true, ◌+◌, ◌*◌, ◌-◌, ◌/◌, ◌≤◌, ◌<◌, pos, neg_ℤ};
ghost use Rattle.image.specs.Integers.{value_count, in_range};
ghost use Rattle.image.specs.Rules.{is_integer_size};
ghost use Rattle.integer_rows.specs.IntegerRows.{row_size, row_signed, integer_row};

// The sizes, in bytes.
const SIZES: [u16; 10] = [1, 2, 4, 8, 16, 1, 2, 4, 8, 16];

// The least values, the lower eight bytes.
const LEAST_LOW: [u64; 10] = [
    0xffffffffffffff80, // i8
    0xffffffffffff8000, // i16
    0xffffffff80000000, // i32
    0x8000000000000000, // i64
    0x0000000000000000, // i128
    0x0000000000000000, // u8
    0x0000000000000000, // u16
    0x0000000000000000, // u32
    0x0000000000000000, // u64
    0x0000000000000000, // u128
];

// The least values, the upper eight bytes.
const LEAST_HIGH: [u64; 10] = [
    0xffffffffffffffff, // i8
    0xffffffffffffffff, // i16
    0xffffffffffffffff, // i32
    0xffffffffffffffff, // i64
    0x8000000000000000, // i128
    0x0000000000000000, // u8
    0x0000000000000000, // u16
    0x0000000000000000, // u32
    0x0000000000000000, // u64
    0x0000000000000000, // u128
];

// The greatest values, the lower eight bytes.
const GREATEST_LOW: [u64; 10] = [
    0x000000000000007f, // i8
    0x0000000000007fff, // i16
    0x000000007fffffff, // i32
    0x7fffffffffffffff, // i64
    0xffffffffffffffff, // i128
    0x00000000000000ff, // u8
    0x000000000000ffff, // u16
    0x00000000ffffffff, // u32
    0xffffffffffffffff, // u64
    0xffffffffffffffff, // u128
];

// The greatest values, the upper eight bytes.
const GREATEST_HIGH: [u64; 10] = [
    0x0000000000000000, // i8
    0x0000000000000000, // i16
    0x0000000000000000, // i32
    0x0000000000000000, // i64
    0x7fffffffffffffff, // i128
    0x0000000000000000, // u8
    0x0000000000000000, // u16
    0x0000000000000000, // u32
    0x0000000000000000, // u64
    0xffffffffffffffff, // u128
];

// A row of the table.
#[derive(Clone, Copy)]
pub struct IntegerRow {
    pub size: u16,
    pub least_low: u64,
    pub least_high: u64,
    pub greatest_low: u64,
    pub greatest_high: u64,
}

// The number of the row of a size and a sign.
pub fn row_number(size: u16, signed: bool) -> usize
    requires { is_integer_size size ≡ true }
    ensures { (result < 10) × (row_size result ≡ size) × (row_signed result ≡ signed) }
{
    let row = SIZES[..4].iter().position(|s| *s == size).unwrap_or(4);
    if signed { row } else { row + 5 }
}

// The row with a number.
pub fn row_at(row: usize) -> IntegerRow
    requires { row < 10 }
    ensures { result ≡ integer_row (row_size row) (row_signed row) }
{
    IntegerRow {
        size: SIZES[row],
        least_low: LEAST_LOW[row],
        least_high: LEAST_HIGH[row],
        greatest_low: GREATEST_LOW[row],
        greatest_high: GREATEST_HIGH[row],
    }
}

// The row of a size and a sign.
pub fn integer_row(size: u16, signed: bool) -> IntegerRow
    requires { is_integer_size size ≡ true }
    ensures { result ≡ integer_row size signed }
{
    row_at(row_number(size, signed))
}

// A number that is not negative is in the range where it is not above the row's greatest. Every row holds 0 to 127: for these none is looked up.
pub fn positive_in_range(size: u16, signed: bool, low: u64, high: u64) -> bool
    requires { is_integer_size size ≡ true }
    ensures { result ≡ in_range size signed (pos (low + value_count 8 * high)) }
{
    if high == 0 {
        if low < 128 {
            return true;
        }
    }
    let row = integer_row(size, signed);
    if high == row.greatest_high {
        return low <= row.greatest_low;
    }
    high < row.greatest_high
}

// A negative number is in the range where it is not below the row's least. It is below every least that is not negative.
pub fn negative_in_range(size: u16, signed: bool, low: u64, high: u64) -> bool
    requires { (is_integer_size size ≡ true) × (value_count 8 / 2 ≤ high) }
    ensures { result ≡ in_range size signed (neg_ℤ (pos (value_count 16 - (low + value_count 8 * high)))) }
{
    let row = integer_row(size, signed);
    if row.least_high < 0x8000000000000000 {
        return false;
    }
    if high == row.least_high {
        return row.least_low <= low;
    }
    row.least_high < high
}
