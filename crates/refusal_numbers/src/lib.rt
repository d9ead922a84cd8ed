// Document 01's number and reason of what stops a lowering.
#![tactic(auto)]

ghost use Rattle.std.specs.Prelude.{◌≡◌};
ghost use Rattle.refusals.specs.Refusals.{number_of, reason_of};

use refusals::MirLowerError;

// Document 01's number of a refusal.
pub fn number_of(e: MirLowerError) -> u16
    ensures { result ≡ number_of e }
{
    match e {
        MirLowerError::IncompletePattern => 3,
        MirLowerError::TypeError(_) => 4,
        MirLowerError::UnresolvedField => 5,
        MirLowerError::NotSupported => 6,
        MirLowerError::Ellipsis => 7,
        MirLowerError::UnsizedTemporary => 8,
        MirLowerError::InaccessibleLocal => 9,
        MirLowerError::Expr => 10,
        MirLowerError::Limit => 11,
        MirLowerError::PlaceType => 12,
        MirLowerError::UnresolvedName => 13,
        MirLowerError::NoScope => 14,
    }
}

// Its reason: only a `TypeError` has one.
pub fn reason_of(e: MirLowerError) -> u16
    ensures { result ≡ reason_of e }
{
    match e {
        MirLowerError::TypeError(reason) => reason,
        _ => 0,
    }
}
