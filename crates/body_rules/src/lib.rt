// Whether a body and its scopes, in one table, may be handed in: the counts are within the limits, and the rows in use name nothing that is missing. The table has
// its length by its type.
#![tactic(auto)]

ghost use Rattle.std.specs.Prelude.{◌≡◌};
ghost use Rattle.body_row_rules.specs.Bodies.{counts_within};
ghost use Rattle.body_tables.specs.Layout.{body_of};
ghost use Rattle.body_rules.specs.Rules.{Looks};

use body_table_rules::{
    blocks_hold, entries_belong, entries_hold, locals_hold, scopes_hold, statements_hold,
};
use body_tables::BODY_WORDS;
use mir::Counts;

fn counts_within(counts: Counts) -> bool
    ensures { result ≡ counts_within counts }
{
    if 512 < counts.blocks {
        return false;
    }
    if 1024 < counts.statements {
        return false;
    }
    if 512 < counts.locals {
        return false;
    }
    if 32 < counts.scopes {
        return false;
    }
    counts.entries <= 1024
}

// A body and its scopes may be handed in, beside an image with so many types and variants.
pub fn body_holds(types: u16, variants: u16, body: &[u16; BODY_WORDS], counts: Counts) -> bool
    ensures { Looks types variants (body_of body.now) counts result }
{
    if !counts_within(counts) {
        return false;
    }
    if !blocks_hold(body, counts) {
        return false;
    }
    if !statements_hold(types, variants, body, counts) {
        return false;
    }
    if !locals_hold(types, body, counts) {
        return false;
    }
    if !scopes_hold(body, counts) {
        return false;
    }
    if !entries_hold(body, counts) {
        return false;
    }
    entries_belong(body, counts)
}
