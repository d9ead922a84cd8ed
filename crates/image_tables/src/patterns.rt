// The rules on patterns, in one walk over their rows: each row by itself, and then the numbers of its subpatterns.
ghost use Rattle.std.specs.Prelude.{◌≡◌, ◌&&◌, ◌≤◌, replicate};
ghost use Rattle.image.specs.Tables.{Whole, pattern_count, list_count};
ghost use Rattle.image.specs.Lists.{all_below};
ghost use Rattle.image.specs.Patterns.{pattern_holds, subpatterns_below, used_once};

use image::{PatId, Tables};
use image_marks::take_subpatterns;
use pattern_rules::patterns::pattern_holds;

// Every pattern, whose subpatterns are marked.
fn take_patterns(image: &[u8], tables: Tables, marks: &mut [u8]) -> bool
    requires { Whole image.now tables × (marks.old ≡ replicate 512 0) × (pattern_count image.now ≤ 512) × (list_count image.now ≤ 2048) }
    ensures { result ≡ all_below (pattern_holds image.now) (pattern_count image.now) && (all_below (subpatterns_below image.now) (pattern_count image.now) && used_once image.now) }
{
    for p in 0..tables.patterns.count {
        if !pattern_holds(image, tables, PatId(p)) {
            return false;
        }
        if !take_subpatterns(image, tables, marks, PatId(p)) {
            return false;
        }
    }
    true
}

// Each pattern's row holds, each subpattern's number is below its parent's, and none is used twice.
pub fn patterns_hold(image: &[u8], tables: Tables) -> bool
    requires { Whole image.now tables × (pattern_count image.now ≤ 512) × (list_count image.now ≤ 2048) }
    ensures { result ≡ all_below (pattern_holds image.now) (pattern_count image.now) && (all_below (subpatterns_below image.now) (pattern_count image.now) && used_once image.now) }
{
    let mut marks = [0u8; 512];
    take_patterns(image, tables, &mut marks)
}
