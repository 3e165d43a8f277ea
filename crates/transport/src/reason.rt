// The wire reasons of an Abort (001, Table 11).
ghost use Rattle.std.specs.Prelude.{◌≡◌};
ghost use Rattle.transport.specs.Reasons.{wire_reason};

use frame::refusal::Refusal;

// The reason that an Abort carries for a refusal.
#[tactic(auto, unfolding(crate::specs::Reasons::reason_of))]
pub fn wire_reason(r: Refusal) -> u8
    ensures { result ≡ wire_reason r }
{
    match r {
        Refusal::TooLong => 9,
        Refusal::SlotsFull => 1,
        Refusal::OutOfSequence | Refusal::GrantRange => 7,
        Refusal::Silence => 3,
        Refusal::RequestsSpent => 5,
        _ => 250,
    }
}
