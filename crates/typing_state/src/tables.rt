// The rows of the parents that wait, in a lent table.
ghost use Rattle.std.specs.Prelude.{◌≡◌, ◌*◌, ◌<◌, length};
ghost use Rattle.row_tables.specs.Rows.{stored, row_at};
ghost use Rattle.typing_state.specs.Parents.{waiting_words, waiting_row};

use row_tables::store_row;
use type_parts::PartsRow;

// How the parts of a parent are read, and how many of them are left.
#[derive(Clone, Copy)]
pub struct WaitingRow {
    pub reads: PartsRow,
    pub left: u16,
}

// The parent d.
pub fn waiting_at(waiting: &[u16], d: usize) -> WaitingRow
    requires { (length waiting.now ≡ 114695) × (d < 16385) }
    ensures { result ≡ waiting_row (row_at 7 waiting.now d) }
{
    let at = 7 * d;
    let reads = PartsRow {
        kind: waiting[at],
        a: waiting[at + 1],
        b: waiting[at + 2],
        c: waiting[at + 3],
        mode: waiting[at + 4],
        many: waiting[at + 5],
    };
    WaitingRow {
        reads: reads,
        left: waiting[at + 6],
    }
}

pub fn store_waiting(waiting: &mut [u16], d: usize, reads: PartsRow, left: u16)
    requires { (length waiting.old ≡ 114695) × (d < 16385) }
    ensures { waiting.new ≡ stored waiting.old (7 * d) (waiting_words reads left) }
{
    let row = [
        reads.kind, reads.a, reads.b, reads.c, reads.mode, reads.many, left,
    ];
    store_row(waiting, 7 * d, &row);
}
