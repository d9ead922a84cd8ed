// What a walk over a pattern answers. What an answer promises is defined in specs/, and that answers follow one another is proved in proofs/.
#![tactic(auto)]

use image::PatId;
use mir::{BasicBlockId, Counts};
use refusals::MirLowerError;

// What the lowering of a pattern, or a part of it, gives: the counts, the block where a match goes on, and the one where a mismatch does; or why it was refused, and the
// pattern that was visited then.
pub type Lowered = Result<(Counts, BasicBlockId, Option<BasicBlockId>), (MirLowerError, PatId)>;
