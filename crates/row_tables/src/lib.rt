// Tables of rows in lent numbers: a row is stored whole, and what lies past the last row is cleared.
#![tactic(auto)]

ghost use Rattle.std.specs.Prelude.{◌≡◌, ◌+◌, ◌-◌, ◌≤◌, length};
ghost use Rattle.row_tables.specs.Rows.{zeros, stored, cleared, AtMost, ZerosFrom};

// The row, from the number `at` of the table on.
pub fn store_row(table: &mut [u16], at: usize, row: &[u16])
    requires { at + length row.now ≤ length table.old }
    ensures { table.new ≡ stored table.old at row.now }
{
    table[at..at + row.len()].copy_from_slice(row);
}

// Zeros, from the number `from` of the table up to the number `to`.
fn clear_to(table: &mut [u16], from: usize, to: usize)
    requires { (from ≤ to) × (to ≤ length table.old) }
    ensures { table.new ≡ stored table.old from (zeros (to - from)) }
{
    table[from..to].fill(0);
}

// The bits of the 512 numbers from `at` on, together.
fn bits_of(table: &[u16], at: usize) -> u16
    requires { at + 512 ≤ length table.now }
    ensures { AtMost result table.now at 512 }
{
    let mut bits = 0u16;
    for number in &table[at..at + 512] {
        bits |= *number;
    }
    bits
}

// How far the table has to be cleared, if it is from the number `at` on: all numbers behind are zeros already. It is looked at from its end, 512 numbers at a time.
fn set_to(table: &[u16], at: usize) -> usize
    requires { at ≤ length table.now }
    ensures { (at ≤ result) × ZerosFrom table.now result }
{
    let mut end = table.len();
    // A while: the end moves down by 512 numbers.
    while 512 <= end - at {
        if bits_of(table, end - 512) != 0 {
            return end;
        }
        end -= 512;
    }
    end
}

// Zeros, from the number `at` of the table on. To read is quicker than to write, and what lies far above the rows in use is mostly zeros already.
pub fn clear_from(table: &mut [u16], at: usize)
    requires { at ≤ length table.old }
    ensures { table.new ≡ cleared table.old at }
{
    let end = set_to(table, at);
    clear_to(table, at, end);
}
