// The public calls. Here stand the reasons for which they are refused, in specs/ what the calls on a body and its scopes give and promise, and in proofs/ what these rest on.
#![tactic(auto)]

ghost use Rattle.std.specs.Prelude.{◌≡◌};
ghost use Rattle.body_calls_spec.specs.Unopened.{call_error, pattern_call_error};

use image::PatId;
use refusals::MirLowerError;

// Which of image and body, with its scopes, was not taken before a call's own step.
#[derive(Clone, Copy)]
pub enum Unopened {
    // The body names nothing: number 2.
    BadCall,
    // The image breaks a rule: number 1.
    BadImage,
}

// Why a call on a body is refused.
#[derive(Clone, Copy)]
pub enum CallError {
    Refused(MirLowerError),
    BadCall,
    BadImage,
}

// Why a call on a pattern or on parameters is refused.
#[derive(Clone, Copy)]
pub enum PatternCallError {
    // The error, and the pattern that was visited then, or 65535.
    Refused(MirLowerError, PatId),
    BadCall,
    BadImage,
}

impl From<Unopened> for CallError {
    ghost from_gives = { λ why e. e ≡ call_error why };

    fn from(why: Unopened) -> CallError {
        match why {
            Unopened::BadCall => CallError::BadCall,
            Unopened::BadImage => CallError::BadImage,
        }
    }
}

impl From<Unopened> for PatternCallError {
    ghost from_gives = { λ why e. e ≡ pattern_call_error why };

    fn from(why: Unopened) -> PatternCallError {
        match why {
            Unopened::BadCall => PatternCallError::BadCall,
            Unopened::BadImage => PatternCallError::BadImage,
        }
    }
}
