// A draft and its stack in one table that the caller lends: what is added to each of its parts.
#![tactic(auto)]

ghost use Rattle.std.specs.Prelude.{◌≡◌, ◌+◌, ◌*◌, ◌≤◌, ◌<◌, length, get_or, take, drop};
ghost use Rattle.row_tables.specs.Rows.{row_at, stored};
ghost use Rattle.draft_tables.specs.Layout.{type_of_words, range_of_words, WithinDraft, type_more, pattern_more, binding_more, words_more, bytes_more, height_is, HoldsType, HoldsPattern, HoldsBinding, HoldsWords, HoldsBytes, HoldsStack};

use image::rows::{PatRow, TypeRow};
use row_tables::store_row;

// Where each part begins; that of the types begins at 0.
pub const PATTERNS: usize = 1280;

pub const BINDINGS: usize = 4864;

pub const CALLED: usize = 5376;

pub const WORDS: usize = 5888;

pub const BYTES: usize = 7936;

pub const STACK: usize = 24320;

pub const DRAFT_WORDS: usize = 40704;

// How much of each part is in use: rows of types, patterns and bindings, list words, bytes of data, and words on the stack.
#[derive(Clone, Copy)]
pub struct DraftCounts {
    pub types: u16,
    pub patterns: u16,
    pub bindings: u16,
    pub words: u16,
    pub bytes: u16,
    pub height: u16,
}

// A type behind those that are there.
pub fn push_type(draft: &mut [u16], c: DraftCounts, row: TypeRow) -> DraftCounts
    requires { (length draft.old ≡ 40704) × (WithinDraft c × (c.types < 256)) }
    ensures { (result ≡ type_more c) × HoldsType draft.old c row draft.new }
{
    let words = [row.kind, row.a, row.b, row.c, row.copy];
    store_row(draft, 5 * (c.types as usize), &words);
    DraftCounts {
        types: c.types + 1,
        ..c
    }
}

// A pattern behind those that are there.
pub fn push_pattern(draft: &mut [u16], c: DraftCounts, row: PatRow) -> DraftCounts
    requires { (length draft.old ≡ 40704) × (WithinDraft c × (c.patterns < 512)) }
    ensures { (result ≡ pattern_more c) × HoldsPattern draft.old c row draft.new }
{
    let words = [row.kind, row.ty, row.derefs, row.a, row.b, row.c, row.d];
    store_row(draft, PATTERNS + 7 * (c.patterns as usize), &words);
    DraftCounts {
        patterns: c.patterns + 1,
        ..c
    }
}

// A picked binding behind those that are there, by its type and its name's range.
pub fn push_binding(draft: &mut [u16], c: DraftCounts, ty: u16, from: u16, to: u16) -> DraftCounts
    requires { (length draft.old ≡ 40704) × (WithinDraft c × (c.bindings < 256)) }
    ensures { (result ≡ binding_more c) × HoldsBinding draft.old c ty from to draft.new }
{
    let row = [ty, 1];
    store_row(draft, BINDINGS + 2 * (c.bindings as usize), &row);
    let range = [from, to];
    store_row(draft, CALLED + 2 * (c.bindings as usize), &range);
    DraftCounts {
        bindings: c.bindings + 1,
        ..c
    }
}

// List words behind those that are there.
pub fn push_words(draft: &mut [u16], c: DraftCounts, words: &[u16], many: u16) -> DraftCounts
    requires { ((length draft.old ≡ 40704) × (length words.now ≡ many)) × (WithinDraft c × (c.words + many ≤ 2048)) }
    ensures { (result ≡ words_more many c) × HoldsWords draft.old c words.now many draft.new }
{
    store_row(draft, WORDS + (c.words as usize), words);
    DraftCounts {
        words: c.words + many,
        ..c
    }
}

// Bytes of data behind those that are there: the first of some.
pub fn push_bytes(draft: &mut [u16], c: DraftCounts, bytes: &[u16], many: u16) -> DraftCounts
    requires { ((length draft.old ≡ 40704) × (many ≤ length bytes.now)) × (WithinDraft c × (c.bytes + many ≤ 16384)) }
    ensures { (result ≡ bytes_more many c) × HoldsBytes draft.old c (take many bytes.now) many draft.new }
{
    let end = many as usize;
    store_row(draft, BYTES + (c.bytes as usize), &bytes[0..end]);
    DraftCounts {
        bytes: c.bytes + many,
        ..c
    }
}

// Words on top of the stack.
pub fn push_stack(draft: &mut [u16], c: DraftCounts, words: &[u16], many: u16) -> DraftCounts
    requires { ((length draft.old ≡ 40704) × (length words.now ≡ many)) × (WithinDraft c × (c.height + many ≤ 16384)) }
    ensures { (result ≡ height_is (c.height + many) c) × HoldsStack draft.old c words.now many draft.new }
{
    store_row(draft, STACK + (c.height as usize), words);
    DraftCounts {
        height: c.height + many,
        ..c
    }
}

// Words from one place of the table to another before it.
fn copy_words(draft: &mut [u16], to: usize, from: usize, many: usize)
    requires { (to + many ≤ from) × (from + many ≤ length draft.old) }
    ensures { draft.new ≡ stored draft.old to (take many (drop from draft.old)) }
{
    for i in 0..many {
        draft[to + i] = draft[from + i];
    }
}

// List words behind those that are there: so many of the stack, from a place of it on.
pub fn push_list(draft: &mut [u16], c: DraftCounts, from: u16, many: u16) -> DraftCounts
    requires { ((length draft.old ≡ 40704) × (from + many ≤ 16384)) × (WithinDraft c × (c.words + many ≤ 2048)) }
    ensures { (result ≡ words_more many c) × HoldsWords draft.old c (take many (drop (24320 + from) draft.old)) many draft.new }
{
    copy_words(
        draft,
        WORDS + (c.words as usize),
        STACK + (from as usize),
        many as usize,
    );
    DraftCounts {
        words: c.words + many,
        ..c
    }
}

// The type i that was added.
pub fn added_type(draft: &[u16], i: u16) -> TypeRow
    requires { 5 * i + 5 ≤ length draft.now }
    ensures { result ≡ type_of_words (row_at 5 draft.now i) }
{
    let at = 5 * (i as usize);
    TypeRow {
        kind: draft[at],
        a: draft[at + 1],
        b: draft[at + 2],
        c: draft[at + 3],
        copy: draft[at + 4],
    }
}

// The range of a name.
#[derive(Clone, Copy)]
pub struct NameRange {
    pub from: u16,
    pub to: u16,
}

// The name of the binding b that was added.
pub fn added_name(draft: &[u16], b: u16) -> NameRange
    requires { 5378 + 2 * b ≤ length draft.now }
    ensures { result ≡ range_of_words (row_at 2 (drop 5376 draft.now) b) }
{
    let at = CALLED + 2 * (b as usize);
    NameRange {
        from: draft[at],
        to: draft[at + 1],
    }
}

// The word i of the stack.
pub fn stack_word(draft: &[u16], i: u16) -> u16
    requires { 24320 + i < length draft.now }
    ensures { result ≡ get_or draft.now (24320 + i) 0 }
{
    draft[STACK + (i as usize)]
}
