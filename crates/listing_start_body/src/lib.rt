// The body that the listing program starts from: local 0 of its type, and the bindings' locals.
#![tactic(auto)]

ghost use Rattle.std.specs.Prelude.{◌≡◌, true, length, set};
ghost use Rattle.image.specs.Tables.{Whole};
ghost use Rattle.image.specs.Valid.{valid};
ghost use Rattle.state.specs.State.{encode, counts_of};
ghost use Rattle.listing_start.specs.Started.{start_state};
ghost use Rattle.listing_start.specs.Sizes.{locals_filled};
ghost use Rattle.body_tables.specs.Layout.{body_words, body_of, with_locals};

use body_tables::{BODY_WORDS, LOCALS, SCOPES};
use image::rows::binding_at;
use image::{BindingId, Tables};
use mir::Counts;
use row_tables::clear_from;

// The bindings' locals, from local 1 on, have the bindings' types.
fn type_bindings(image: &[u8], tables: Tables, locals: &mut [u16])
    requires { (valid image.now ≡ true) × Whole image.now tables × (length locals.old ≡ 512) }
    ensures { locals.new ≡ locals_filled image.now locals.old }
{
    for i in 0..tables.bindings.count {
        locals[1 + (i as usize)] = binding_at(image, tables, BindingId(i)).ty;
    }
}

// Local 0 has the type t, and the bindings' locals follow.
fn type_locals(image: &[u8], tables: Tables, t: u16, locals: &mut [u16])
    requires { (valid image.now ≡ true) × Whole image.now tables × (length locals.old ≡ 512) }
    ensures { locals.new ≡ locals_filled image.now (set locals.old 0 t) }
{
    locals[0] = t;
    type_bindings(image, tables, locals);
}

// The same in a body.
fn type_body(image: &[u8], tables: Tables, t: u16, body: &mut [u16])
    requires { (valid image.now ≡ true) × Whole image.now tables × (length body.old ≡ body_words) }
    ensures { body_of body.new ≡ with_locals (body_of body.old) (locals_filled image.now (set (body_of body.old).locals 0 t)) }
{
    type_locals(image, tables, t, &mut body[LOCALS..SCOPES]);
}

// Block 0 is open, local 0 has the type t, the bindings' locals follow, and one scope is open.
pub fn start_body(image: &[u8], tables: Tables, t: u16, body: &mut [u16; BODY_WORDS]) -> Counts
    requires { (valid image.now ≡ true) × Whole image.now tables }
    ensures { (result ≡ counts_of (start_state image.now t)) × (body_of body.new ≡ encode (start_state image.now t)) }
{
    clear_from(body, 0);
    type_body(image, tables, t, body);
    Counts {
        blocks: 1,
        statements: 0,
        locals: 1 + tables.bindings.count,
        scopes: 1,
        entries: 0,
    }
}
