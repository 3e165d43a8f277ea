// Who a frame of a transfer is from and whose it is: its identifier, and the first byte of its data (001, Figures 29 and 37).
ghost use Rattle.std.specs.Prelude.{◌≡◌, get_or};
ghost use Rattle.transport.specs.Heads.{id_to, to_responder, data_id, to_originator, key_of, session_key_of, head};

use super::Key;
use frame::judge::Route;
use frame::{Address, SessionNumber};

// Priority 7, both pages 0 and PF 77 or 78, at their places in an identifier.
const CONTROL: u32 = 0x1C4D0000;

const DATA: u32 = 0x1C4E0000;

#[tactic(auto, unfolding(crate::specs::Heads::id_to))]
fn control_id(to: Address, from: Address) -> u32
    ensures { result ≡ id_to 77 to from }
{
    CONTROL + 256 * u32::from(to.0) + u32::from(from.0)
}

// The identifier of a control frame that the responder sends: from the session's DA to its SA.
pub fn to_originator(key: Key) -> u32
    ensures { result ≡ to_originator key }
{
    control_id(key.sa, key.da)
}

// The identifier of a control frame that the originator sends: from the session's SA to its DA.
pub fn to_responder(key: Key) -> u32
    ensures { result ≡ to_responder key }
{
    control_id(key.da, key.sa)
}

// The identifier of a data frame.
#[tactic(auto, unfolding(crate::specs::Heads::id_to))]
pub fn data_id(key: Key) -> u32
    ensures { result ≡ data_id key }
{
    DATA + 256 * u32::from(key.da.0) + u32::from(key.sa.0)
}

// The first byte, 0 where there is none.
fn first(bytes: &[u8]) -> u8
    ensures { result ≡ get_or bytes.now 0 0 }
{
    bytes.first().copied().unwrap_or(0)
}

// The key of the session that an originator's frame names.
pub fn key_of(route: Route, bytes: &[u8]) -> Key
    ensures { result ≡ key_of route bytes.now }
{
    Key {
        sa: route.sa,
        da: route.da,
        session: SessionNumber(first(bytes) / 16 % 16),
    }
}

// The same of a responder's frame: it goes the other way.
pub fn session_key(route: Route, bytes: &[u8]) -> Key
    ensures { result ≡ session_key_of route bytes.now }
{
    let back = Route {
        sa: route.da,
        da: route.sa,
    };
    key_of(back, bytes)
}

// The first byte of a control frame.
pub fn head_byte(control: u8, key: Key) -> u8
    ensures { result ≡ head control key }
{
    ((u32::from(control) + 16 * u32::from(key.session.0)) % 256) as u8
}
