// Temporaries on a body in one table. A function stops at the first refusal and leaves the table as it then is; below the counts nothing is changed.
#![tactic(auto)]

ghost use Rattle.std.specs.Prelude.{◌≡◌};
ghost use Rattle.image.specs.Tables.{Whole};
ghost use Rattle.lower_spec.specs.Temps.{is_slice, temp, discr_temp_place};
ghost use Rattle.body_tables.specs.Layout.{body_of};
ghost use Rattle.body_temps.specs.Promises.{Makes};

use body_live_marks::mark_live;
use body_tables::BODY_WORDS;
use body_tables::locals::new_local;
use image::Tables;
use image::rows::type_at;
use mir::locals::I128;
use mir::{BasicBlockId, Counts};
use place::LocalId;
use refusals::MirLowerError;

// The word of a local's type says a slice.
fn is_slice(image: &[u8], tables: Tables, word: u16) -> bool
    requires { Whole image.now tables }
    ensures { result ≡ is_slice image.now word }
{
    if tables.types.count <= word {
        return false;
    }
    type_at(image, tables, word).kind == 9
}

// A temporary of the type that the word says, live from the end of a block on.
pub fn temp(
    image: &[u8],
    tables: Tables,
    body: &mut [u16; BODY_WORDS],
    counts: Counts,
    word: u16,
    block: BasicBlockId,
) -> Result<(Counts, LocalId), MirLowerError>
    requires { Whole image.now tables }
    ensures { Makes (λ st. temp image.now st word block) counts (body_of body.old) result (body_of body.new) }
{
    if is_slice(image, tables, word) {
        return Err(MirLowerError::UnsizedTemporary);
    }
    let (c1, l) = new_local(body, counts, word).ok_or(MirLowerError::Limit)?;
    let c2 = mark_live(body, c1, l, block, false)?;
    Ok((c2, l))
}

// The local of a test of an enum: a temporary of its own.
pub fn discr_temp_place(
    image: &[u8],
    tables: Tables,
    body: &mut [u16; BODY_WORDS],
    counts: Counts,
    block: BasicBlockId,
) -> Result<(Counts, LocalId), MirLowerError>
    requires { Whole image.now tables }
    ensures { Makes (λ st. discr_temp_place image.now st block) counts (body_of body.old) result (body_of body.new) }
{
    temp(image, tables, body, counts, I128, block)
}
