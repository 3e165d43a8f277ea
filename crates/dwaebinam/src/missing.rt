// The number missing for a program in C (include/dwaebinam.h).
ghost use Rattle.std.specs.Prelude.{◌≡◌};
ghost use Rattle.engine.specs.Missing.{missing_in};
ghost use Rattle.dwaebinam.specs.Missing.{missing_answer};

use super::pack::refused;
use engine::missing::missing;
use frame::{Address, SessionNumber};
use transport::Key;

// How many segments of the key's session are not in yet, or 256 times the number of the refusal.
pub fn dwb_missing(buffer: &[u8], sa: u8, da: u8, session: u8) -> usize
    ensures { result ≡ missing_answer (missing_in buffer.now (record { sa = record { 0 = sa }; da = record { 0 = da }; session = record { 0 = session } })) }
{
    let key = Key {
        sa: Address(sa),
        da: Address(da),
        session: SessionNumber(session),
    };
    missing(buffer, key).map_or_else(refused, |n| n as usize)
}
