// Numbers that may stand only once: each is marked when it is first met.
#![tactic(auto)]

ghost use Rattle.std.specs.Prelude.{true, [], ◌∷◌, ◌+◌, ◌*◌, ◌<◌, ◌≤◌, length};
ghost use Rattle.image.specs.Tables.{Whole, list_count};
ghost use Rattle.image.specs.Lists.{up_from};
ghost use Rattle.image.specs.Rules.{listed};
ghost use Rattle.image.specs.Subpatterns.{if_present};
ghost use Rattle.marks.specs.Marks.{Taken};

use image::Tables;
use image::rows::list_at;

// A number that is below the bound and not marked is marked.
pub fn take(bound: u16, marks: &mut [u8], x: u16) -> bool
    requires { bound ≤ length marks.old }
    ensures { Taken bound marks.old marks.new (x ∷ []) result }
{
    if bound <= x {
        return false;
    }
    let at = x as usize;
    if marks[at] != 0 {
        return false;
    }
    marks[at] = 1;
    true
}

// A number that may be absent.
pub fn take_present(bound: u16, marks: &mut [u8], x: u16) -> bool
    requires { bound ≤ length marks.old }
    ensures { Taken bound marks.old marks.new (if_present x) result }
{
    if x == 65535 {
        return true;
    }
    take(bound, marks, x)
}

// The `count` numbers from `from` on.
pub fn take_range(bound: u16, marks: &mut [u8], from: u16, count: u16) -> bool
    requires { (bound ≤ length marks.old) × (from + count < 65536) }
    ensures { Taken bound marks.old marks.new (up_from from count) result }
{
    for x in from..from + count {
        if !take(bound, marks, x) {
            return false;
        }
    }
    true
}

// The `count` words of the list from `from` on, each `step` behind the one before.
pub fn take_listed(
    image: &[u8],
    tables: Tables,
    bound: u16,
    marks: &mut [u8],
    step: u16,
    from: u16,
    count: u16,
) -> bool
    requires { Whole image.now tables × (bound ≤ length marks.old) × (step ≤ 2) × (from + step * count < list_count image.now + step) × (list_count image.now ≤ 2048) }
    ensures { Taken bound marks.old marks.new (listed image.now step from count) result }
{
    for k in 0..count {
        if !take(bound, marks, list_at(image, tables, from + step * k)) {
            return false;
        }
    }
    true
}
