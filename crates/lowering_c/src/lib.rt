// `pattern_match` for a caller in C: the numbers of a call are handed in as words, and those of its answer are handed out so.
#![tactic(auto)]

ghost use Rattle.std.specs.Prelude.{◌≡◌};
ghost use Rattle.lowering_c.specs.Words.{block_or_none, block_word, answer_words, WordsGive};
ghost use Rattle.body_tables.specs.Layout.{body_of};

use body_calls_spec::PatternCallError;
use body_tables::BODY_WORDS;
use image::PatId;
use mir::{BasicBlockId, Counts};
use pattern_entering::VISIT_WORDS;
use pattern_match_call::pattern_match;
use place::{LocalId, Place};
use refusal_numbers::{number_of, reason_of};

// A block's number, or 65535 for none.
fn block_or_none(word: u16) -> Option<BasicBlockId>
    ensures { result ≡ block_or_none word }
{
    if word == 65535 {
        return None;
    }
    Some(BasicBlockId(word))
}

fn block_word(b: Option<BasicBlockId>) -> u16
    ensures { result ≡ block_word b }
{
    match b {
        None => 65535,
        Some(block) => block.0,
    }
}

// The words of an answer: the three numbers of a refusal, or zeros; then the block where a match goes on, the one where a mismatch does, and the five counts, or zeros.
fn answer_words(
    call: Result<(Counts, BasicBlockId, Option<BasicBlockId>), PatternCallError>,
) -> [u16; 10]
    ensures { result ≡ answer_words call }
{
    match call {
        Ok((c, then, els)) => [
            0,
            0,
            0,
            then.0,
            block_word(els),
            c.blocks,
            c.statements,
            c.locals,
            c.scopes,
            c.entries,
        ],
        Err(PatternCallError::Refused(e, p)) => [
            number_of(e),
            p.0,
            reason_of(e),
            0,
            0,
            0,
            0,
            0,
            0,
            0,
        ],
        Err(PatternCallError::BadCall) => [2, 65535, 0, 0, 0, 0, 0, 0, 0, 0],
        Err(PatternCallError::BadImage) => [1, 65535, 0, 0, 0, 0, 0, 0, 0, 0],
    }
}

// `pattern_match` on a whole local. The words of the call are the five counts, the pattern, the block to start from, the else and the local; 65535 is no else.
#[unsafe(no_mangle)]
pub extern "C" fn fithongu_pattern_match(
    image: &[u8],
    bindings: &[u16],
    body: &mut [u16; BODY_WORDS],
    visits: &mut [u16; VISIT_WORDS],
    call: &[u16; 9],
    answer: &mut [u16; 10],
)
    ensures { WordsGive image.now bindings.now call.now (body_of body.old) visits.old answer.new (body_of body.new) visits.new }
{
    let counts = Counts {
        blocks: call[0],
        statements: call[1],
        locals: call[2],
        scopes: call[3],
        entries: call[4],
    };
    let place = Place {
        local: LocalId(call[8]),
        len: 0,
        elems: [0u32; 16],
    };
    let given = pattern_match(
        image,
        bindings,
        body,
        visits,
        counts,
        PatId(call[5]),
        BasicBlockId(call[6]),
        block_or_none(call[7]),
        place,
    );
    *answer = answer_words(given);
}
