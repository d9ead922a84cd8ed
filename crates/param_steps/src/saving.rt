// The bindings' locals are kept aside, and put back after a refusal.
ghost use Rattle.std.specs.Prelude.{◌≡◌, ◌≤◌, length, take};

use row_tables::store_row;

// The words of a table, and zeros behind them.
pub fn saved_words(table: &[u16]) -> [u16; 256]
    requires { length table.now ≤ 256 }
    ensures { (length result ≡ 256) × (take (length table.now) result ≡ table.now) }
{
    let mut words = [0u16; 256];
    store_row(&mut words, 0, table);
    words
}

// A table gets as many words as it has.
pub fn put_words(table: &mut [u16], words: &[u16])
    requires { length table.old ≤ length words.now }
    ensures { table.new ≡ take (length table.old) words.now }
{
    let n = table.len();
    store_row(table, 0, &words[0..n]);
}
