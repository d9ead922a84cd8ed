// The binding of a name, among those that were added to the draft: names are compared by their bytes.
#![tactic(auto)]

ghost use Rattle.std.specs.Prelude.{◌≡◌, ◌≤◌, min, length, drop};
ghost use Rattle.row_tables.specs.Rows.{row_at};
ghost use Rattle.pattern_words.specs.Words.{same_word};
ghost use Rattle.name_tables.specs.Names.{first_from};
ghost use Rattle.pattern_syntax.specs.Reduced.{bytes_from};
ghost use Rattle.draft_tables.specs.Layout.{name_of_words};
ghost use Rattle.draft_names.specs.Names.{found_binding};

use draft_tables::added_name;
use name_equality::is_same_word;

fn lesser(a: usize, b: usize) -> usize
    ensures { result ≡ min a b }
{
    if a < b {
        return a;
    }
    b
}

// The bytes of a name.
fn name_bytes(names: &[u8], from: u16, to: u16) -> &[u8]
    ensures { result.now ≡ bytes_from names.now from to }
{
    let end = lesser(to as usize, names.len());
    let start = lesser(from as usize, end);
    &names[start..end]
}

// The first of so many added bindings whose name is this, or none.
pub fn binding_of(names: &[u8], draft: &[u16], many: u16, from: u16, to: u16) -> Option<u16>
    requires { (length draft.now ≡ 40704) × (many ≤ 256) }
    ensures { found_binding result ≡ first_from (λ b. same_word (name_of_words names.now (row_at 2 (drop 5376 draft.now) b)) (bytes_from names.now from to)) 0 many }
{
    let name = name_bytes(names, from, to);
    for b in 0..many {
        let range = added_name(draft, b);
        if is_same_word(name_bytes(names, range.from, range.to), name) {
            return Some(b);
        }
    }
    None
}
