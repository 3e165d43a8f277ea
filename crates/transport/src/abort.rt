// Abort: either end breaks the session off (001, Figure 35; the roles are Table 12's).
ghost use Rattle.std.specs.Prelude.{◌≡◌};
ghost use Rattle.transport.specs.Aborts.{role_byte, role_at, abort_at, abort_bytes};

use super::Key;
use super::head::head_byte;
use frame::octet::low24_at;

// Who breaks off.
#[derive(Clone, Copy, PartialEq, Eq)]
pub enum Role {
    Originator,
    Responder,
}

#[derive(Clone, Copy)]
pub struct Abort {
    pub key: Key,
    pub reason: u8,
    pub pgn: u32,
}

// The role's code: 0 is the originator's, 1 the responder's.
pub fn role_in(frame: &[u8; 12]) -> u8
    ensures { result ≡ role_at frame.now }
{
    frame[7] % 4
}

pub fn read_abort(key: Key, frame: &[u8; 12]) -> Abort
    ensures { result ≡ abort_at key frame.now }
{
    Abort {
        key,
        reason: frame[8],
        pgn: low24_at(frame, 9),
    }
}

fn role_byte(role: Role) -> u8
    ensures { result ≡ role_byte role }
{
    match role {
        Role::Originator => 252,
        Role::Responder => 253,
    }
}

pub fn abort_bytes(role: Role, f: Abort) -> [u8; 12]
    ensures { result ≡ abort_bytes role f }
{
    let pgn = f.pgn.to_le_bytes();
    [
        head_byte(15, f.key),
        255,
        255,
        255,
        255,
        255,
        255,
        role_byte(role),
        f.reason,
        pgn[0],
        pgn[1],
        pgn[2],
    ]
}
