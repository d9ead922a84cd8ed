// Number 2's rules on the rows of one table: every row in use is looked at.
ghost use Rattle.std.specs.Prelude.{◌≡◌, ◌≤◌, length};
ghost use Rattle.image.specs.Lists.{all_below};
ghost use Rattle.body_row_rules.specs.Bodies.{block_holds, statement_holds, local_holds, scope_holds, entry_holds};
ghost use Rattle.mir.specs.Blocks.{block_words};
ghost use Rattle.mir.specs.Statements.{statement_words};

use body_row_rules::rows::{block_holds, entry_holds, local_holds, scope_holds};
use body_statement_rules::statement_holds;
use mir::Counts;

pub fn blocks_hold(blocks: &[u16], counts: Counts) -> bool
    requires { (length blocks.now ≡ block_words) × (counts.blocks ≤ 512) }
    ensures { result ≡ all_below (block_holds blocks.now counts) counts.blocks }
{
    (0..counts.blocks).all(|i| block_holds(blocks, counts, i))
}

pub fn statements_hold(types: u16, variants: u16, statements: &[u16], counts: Counts) -> bool
    requires { (length statements.now ≡ statement_words) × (counts.statements ≤ 1024) }
    ensures { result ≡ all_below (statement_holds types variants statements.now counts) counts.statements }
{
    (0..counts.statements).all(|i| statement_holds(types, variants, statements, counts, i))
}

pub fn locals_hold(types: u16, locals: &[u16], counts: Counts) -> bool
    requires { (length locals.now ≡ 512) × (counts.locals ≤ 512) }
    ensures { result ≡ all_below (local_holds types locals.now) counts.locals }
{
    (0..counts.locals).all(|i| local_holds(types, locals, i))
}

pub fn scopes_hold(scopes: &[u16], counts: Counts) -> bool
    requires { (length scopes.now ≡ 32) × (counts.scopes ≤ 32) }
    ensures { result ≡ all_below (scope_holds scopes.now counts) counts.scopes }
{
    (0..counts.scopes).all(|i| scope_holds(scopes, counts, i))
}

pub fn entries_hold(entries: &[u16], counts: Counts) -> bool
    requires { (length entries.now ≡ 1024) × (counts.entries ≤ 1024) }
    ensures { result ≡ all_below (entry_holds entries.now counts) counts.entries }
{
    (0..counts.entries).all(|i| entry_holds(entries, counts, i))
}
