// What comes before a call's own step on a body in one table: image and body are looked at.
#![tactic(auto)]

ghost use Rattle.body_calls_spec.specs.Sizes.{Opens};
ghost use Rattle.body_tables.specs.Layout.{body_of};

use body_calls_spec::Unopened;
use body_rules::body_holds;
use body_tables::BODY_WORDS;
use image::Tables;
use mir::Counts;
use read_image::read_image;

// Image and body, with its scopes, are taken.
pub fn open(image: &[u8], body: &[u16; BODY_WORDS], counts: Counts) -> Result<Tables, Unopened>
    ensures { Opens image.now (body_of body.now) counts result }
{
    let tables = read_image(image).ok_or(Unopened::BadImage)?;
    if body_holds(tables.types.count, tables.variants.count, body, counts) {
        return Ok(tables);
    }
    Err(Unopened::BadCall)
}
