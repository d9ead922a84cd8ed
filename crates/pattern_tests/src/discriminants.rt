// The variant of an enum: a new local holds the discriminant of what lies at the place.
ghost use Rattle.std.specs.Prelude.{◌≡◌, true, ◌<◌};
ghost use Rattle.image.specs.Tables.{Whole, variant_count};
ghost use Rattle.image.specs.Valid.{valid};
ghost use Rattle.pattern_matching.specs.Variants.{discriminant_test};
ghost use Rattle.pattern_walk_spec.specs.Answers.{Begins, Lowers};
ghost use Rattle.body_tables.specs.Layout.{body_of};
ghost use Rattle.state.specs.Promises.{Ready};

use body_assignments::push_assignment;
use body_tables::BODY_WORDS;
use body_temps::discr_temp_place;
use image::rows::{OperandRow, operand_bytes, variant_at};
use image::{PatId, Tables};
use literals::half;
use mir::rvalues::PlaceRvalue;
use mir::{BasicBlockId, Counts};
use pattern_switching::then_switch;
use pattern_walk_spec::Lowered;
use place::Place;
use refusals::MirLowerError;

// What lies at the place has the variant v: the block that goes on is made before an else.
pub fn discriminant_test(
    image: &[u8],
    tables: Tables,
    body: &mut [u16; BODY_WORDS],
    counts: Counts,
    p: PatId,
    v: u16,
    current: BasicBlockId,
    els: Option<BasicBlockId>,
    place: Place,
) -> Lowered
    requires image_value { (valid image.now ≡ true) × Whole image.now tables × (v < variant_count image.now) }
    requires ready { Ready (body_of body.old) counts × Begins counts current els }
    ensures { Lowers (λ ctx. discriminant_test image.now p.0 v ctx current els place) counts current els (body_of body.old) result (body_of body.new) }
{
    let row = variant_at(image, tables, v);
    let bytes = operand_bytes(
        image,
        tables,
        OperandRow {
            kind: 0,
            offset: row.discriminant,
            count: 16,
        },
    );
    let low = half(bytes, 0, 8);
    let high = half(bytes, 8, 8);
    match discr_temp_place(image, tables, body, counts, current) {
        Err(e) => Err((e, p)),
        Ok((c1, l)) => {
            let full = (MirLowerError::Limit, p);
            let c2 = push_assignment(body, c1, current, l, PlaceRvalue::Discr, place).ok_or(full)?;
            then_switch(body, c2, p, l, low, high, current, els)
        }
    }
}
