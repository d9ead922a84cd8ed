// The rows of blocks, locals, scopes and entries.
ghost use Rattle.std.specs.Prelude.{◌≡◌, ◌<◌, ◌≤◌, length};
ghost use Rattle.mir.specs.Blocks.{block_words};
ghost use Rattle.body_row_rules.specs.Bodies.{is_type_word, block_holds, local_holds, scope_holds, entry_holds, entries_belong, elem_holds};

use mir::{BLOCK_WIDTH, Counts};
use place::elems::ProjectionElem;

// The block i: its terminator names blocks and locals that there are.
pub fn block_holds(blocks: &[u16], counts: Counts, i: u16) -> bool
    requires { (length blocks.now ≡ block_words) × (i < 512) }
    ensures { result ≡ block_holds blocks.now counts i }
{
    let at = BLOCK_WIDTH * (i as usize);
    let local = blocks[at + 1];
    let target = blocks[at + 2];
    let other = blocks[at + 3];
    match blocks[at] {
        0 => true,
        1 => target < counts.blocks,
        2 => {
            if counts.locals <= local {
                return false;
            }
            if counts.blocks <= target {
                return false;
            }
            other < counts.blocks
        }
        3 => true,
        4 => {
            if counts.locals <= local {
                return false;
            }
            target < counts.blocks
        }
        _ => false,
    }
}

// The word of a type that there is.
pub fn is_type_word(types: u16, word: u16) -> bool
    ensures { result ≡ is_type_word types word }
{
    if word < types {
        return true;
    }
    if word < 256 {
        return false;
    }
    word <= 258
}

// The local i has a type that there is.
pub fn local_holds(types: u16, locals: &[u16], i: u16) -> bool
    requires { (length locals.now ≡ 512) × (i < 512) }
    ensures { result ≡ local_holds types locals.now i }
{
    is_type_word(types, locals[i as usize])
}

// The entries of the scope i do not end before they begin.
pub fn scope_holds(scopes: &[u16], counts: Counts, i: u16) -> bool
    requires { (length scopes.now ≡ 32) × (counts.scopes ≤ 32) × (i < 32) }
    ensures { result ≡ scope_holds scopes.now counts i }
{
    let at = i as usize;
    let start = scopes[at];
    if i + 1 < counts.scopes {
        return start <= scopes[at + 1];
    }
    start <= counts.entries
}

// The entry i is a local that there is.
pub fn entry_holds(entries: &[u16], counts: Counts, i: u16) -> bool
    requires { (length entries.now ≡ 1024) × (i < 1024) }
    ensures { result ≡ entry_holds entries.now counts i }
{
    entries[i as usize] < counts.locals
}

// Every entry belongs to a scope.
pub fn entries_belong(scopes: &[u16], counts: Counts) -> bool
    requires { length scopes.now ≡ 32 }
    ensures { result ≡ entries_belong scopes.now counts }
{
    if counts.scopes == 0 {
        return counts.entries == 0;
    }
    scopes[0] == 0
}

// An element of a known kind; a Downcast names a variant that there is.
pub fn elem_holds(variants: u16, elem: ProjectionElem) -> bool
    ensures { result ≡ elem_holds variants elem }
{
    match elem {
        ProjectionElem::Downcast(v) => v < variants,
        ProjectionElem::Unknown => false,
        _ => true,
    }
}
