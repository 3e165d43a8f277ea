// Control frames that a responder sends: a receiver writes them, and a sender takes them.
ghost use Rattle.std.specs.Prelude.{◌≡◌};
ghost use Rattle.transport.specs.Responses.{response_id, response_bytes, abort_response_of, response_of};

use super::abort::{Abort, Role, abort_bytes, role_in};
use super::cts::{Cts, CtsRead, cts_bytes, read_cts};
use super::eoma::{Eoma, eoma_bytes, read_eoma};
use super::head::{session_key, to_originator};
use super::{Key, abort};
use frame::judge::Route;
use frame::refusal::Refusal;

// The key is that of the session, so the frame goes to its SA.
#[derive(Clone, Copy)]
pub enum Response {
    Cts(Cts),
    Eoma(Eoma),
    Abort(Abort),
}

// The identifier of the frame.
pub fn identifier(f: Response) -> u32
    ensures { result ≡ response_id f }
{
    match f {
        Response::Cts(x) => to_originator(x.key),
        Response::Eoma(x) => to_originator(x.key),
        Response::Abort(x) => to_originator(x.key),
    }
}

// The data of the frame.
#[tactic(auto, unfolding(crate::specs::Responses::response_bytes))]
pub fn bytes(f: Response) -> [u8; 12]
    ensures { result ≡ response_bytes f }
{
    match f {
        Response::Cts(x) => cts_bytes(x),
        Response::Eoma(x) => eoma_bytes(x),
        Response::Abort(x) => abort_bytes(Role::Responder, x),
    }
}

#[derive(Clone, Copy)]
pub enum ResponseRead {
    Cts(CtsRead),
    Eoma(Eoma),
    Abort(Abort),
}

// An Abort: the responder's, or refused.
fn read_abort(key: Key, frame: &[u8; 12]) -> Result<ResponseRead, Refusal>
    ensures { result ≡ abort_response_of key frame.now }
{
    if role_in(frame) == 1 {
        return Ok(ResponseRead::Abort(abort::read_abort(key, frame)));
    }
    Err(Refusal::NeitherTakes)
}

// What a responder's frame says, for the one who sent the message: 9 for a frame not of 12 bytes, 10 for what no responder sends. The controls
// are the wire's own numbers.
#[tactic(auto, unfolding(crate::specs::Responses::response_of))]
pub fn read_response(route: Route, frame: &[u8]) -> Result<ResponseRead, Refusal>
    ensures { result ≡ response_of route frame.now }
{
    let frame = frame.as_array::<12>().ok_or(Refusal::TransferLength)?;
    let key = session_key(route, frame);
    match frame[0] % 16 {
        1 => Ok(ResponseRead::Cts(read_cts(key, frame))),
        3 => Ok(ResponseRead::Eoma(read_eoma(key, frame))),
        15 => read_abort(key, frame),
        _ => Err(Refusal::NeitherTakes),
    }
}
