// Terminators.
ghost use Rattle.std.specs.Prelude.{◌≡◌, ◌*◌, ◌<◌, length};
ghost use Rattle.row_tables.specs.Rows.{stored};
ghost use Rattle.mir.specs.declared.blocks.Terminator.{Terminator};
ghost use Rattle.mir.specs.Blocks.{term_row, block_width};
ghost use Rattle.body_tables.specs.Layout.{body_words, body_of, with_blocks};

use super::STATEMENTS;
use mir::BasicBlockId;
use mir::blocks::Terminator;

// The terminator of a block, in place of what it had.
pub fn set_terminator(body: &mut [u16], source: BasicBlockId, terminator: Terminator)
    requires { (length body.old ≡ body_words) × (source.0 < 512) }
    ensures { body_of body.new ≡ with_blocks (body_of body.old) (stored (body_of body.old).blocks (block_width * source.0) (term_row terminator)) }
{
    mir::blocks::set_terminator(&mut body[0..STATEMENTS], source, terminator);
}

pub fn set_goto(body: &mut [u16], source: BasicBlockId, target: BasicBlockId)
    requires { (length body.old ≡ body_words) × (source.0 < 512) }
    ensures { body_of body.new ≡ with_blocks (body_of body.old) (stored (body_of body.old).blocks (block_width * source.0) (term_row (Terminator.Goto target))) }
{
    mir::blocks::set_goto(&mut body[0..STATEMENTS], source, target);
}
