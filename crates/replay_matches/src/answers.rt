// What is printed of the answer to a call on a pattern: then and else, or why it was refused.
use body_calls_spec::PatternCallError;
use image::PatId;
use mir::{BasicBlockId, Counts};
use replay_answers::{print_error, print_number, print_refusal};

fn print_else(rt: &impl Print, els: Option<BasicBlockId>) {
    match els {
        None => {
            let _ = rt.write_all(b"else - ");
        }
        Some(b) => {
            let _ = rt.write_all(b"else ");
            print_number(rt, b.0 as u32);
        }
    }
}

fn print_then(rt: &impl Print, then: BasicBlockId, els: Option<BasicBlockId>) {
    let _ = rt.write_all(b"then ");
    print_number(rt, then.0 as u32);
    print_else(rt, els);
}

// The counts behind a call: those of its answer, or after a refusal those before.
pub fn print_match(
    rt: &impl Print,
    answer: Result<(Counts, BasicBlockId, Option<BasicBlockId>), PatternCallError>,
    before: Counts,
) -> Counts {
    match answer {
        Ok((counts, then, els)) => {
            print_then(rt, then, els);
            return counts;
        }
        Err(PatternCallError::Refused(e, p)) => print_error(rt, e, p),
        Err(PatternCallError::BadCall) => print_refusal(rt, 2, PatId(65535), 0),
        Err(PatternCallError::BadImage) => print_refusal(rt, 1, PatId(65535), 0),
    }
    before
}
