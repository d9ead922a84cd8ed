// The fit test: whether a pattern fits a place, for every image and every number of the call.
#![tactic(auto)]

ghost use Rattle.fit.specs.Calls.{fit_call, Gives};

use fit_clauses::pattern_fits;
use fit_handed::call_names;
use image::PatId;
use place::LocalId;
use read_image::read_image;

// The pattern fits the place, or does not; or a number of the call names nothing, or the image breaks a rule.
#[derive(Clone, Copy)]
pub enum FitCall {
    Fits,
    DoesNot,
    BadCall,
    BadImage,
}

// Whether the pattern p fits a place of the type t whose root is the local `root`, where the bindings have these locals.
pub fn fit(image: &[u8], bindings: &[u16], root: LocalId, t: u16, p: PatId) -> FitCall
    ensures { Gives (fit_call image.now bindings.now root.0 t p.0) result }
{
    match read_image(image) {
        None => FitCall::BadImage,
        Some(tables) => {
            if !call_names(tables, bindings, t, p) {
                return FitCall::BadCall;
            }
            if !pattern_fits(image, tables, bindings, root, t, p) {
                return FitCall::DoesNot;
            }
            FitCall::Fits
        }
    }
}
