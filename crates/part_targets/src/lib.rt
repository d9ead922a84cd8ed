// What is read behind a reference that is written as a pattern.
#![tactic(auto)]

ghost use Rattle.std.specs.Prelude.{◌≡◌};
ghost use Rattle.image.specs.Tables.{Whole};
ghost use Rattle.pattern_typing.specs.Contexts.{target_context};
ghost use Rattle.type_parts.specs.Parts.{context_of};

use image::Tables;
use type_parts::PartContext;
use type_parts::sheet::type_in;

// What is behind `&`, or behind `&mut`: the target of a reference that is written so.
pub fn target_context(sheet: &[u8], tables: Tables, mutable: bool, t: u16) -> PartContext
    requires { Whole sheet.now tables }
    ensures { context_of result ≡ target_context sheet.now mutable t }
{
    let row = type_in(sheet, tables, t);
    if row.kind != 7 {
        return PartContext::Partless;
    }
    if mutable {
        if row.copy == 1 {
            return PartContext::Partless;
        }
        return PartContext::Typed(row.a, 0);
    }
    if row.copy != 1 {
        return PartContext::Partless;
    }
    PartContext::Typed(row.a, 0)
}
