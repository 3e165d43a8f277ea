// Which frames this layer takes (01, "Identifier"; the order 2, 1, 3 is that of "Numbered refusals").
ghost use Rattle.std.specs.Prelude.{◌≡◌};
ghost use Rattle.frame.specs.Judge.{route_taken, by_format, judged};

use super::identifier::Identifier;
use super::refusal::Refusal;
use super::{Address, identifier, length};

// Where a frame comes from and where it goes.
#[derive(Clone, Copy, PartialEq, Eq)]
pub struct Route {
    pub sa: Address,
    pub da: Address,
}

// What a frame that is taken carries.
#[derive(Clone, Copy)]
pub enum Content {
    // PF 37, PGN 9472: groups
    MultiPg(Route),
    // PF 77, PGN 19712: FD.TP.CM
    Control(Route),
    // PF 78, PGN 19968: FD.TP.DT
    Data(Route),
}

// Whether the page bits are 0, DA is the own address or 255, and SA is neither 254, 255 nor the own address.
pub fn route_taken(f: Identifier, own: Address) -> bool
    ensures { result ≡ route_taken own f }
{
    (f.extended_data_page == 0)
        & (f.data_page == 0)
        & ((f.ps == own.0) | (f.ps == 255))
        & (f.sa.0 != 254)
        & (f.sa.0 != 255)
        & (f.sa.0 != own.0)
}

// What a frame of the PF carries.
#[tactic(auto, unfolding(crate::specs::Judge::by_format))]
pub fn by_format(pf: u8, route: Route) -> Result<Content, Refusal>
    ensures { result ≡ by_format pf route }
{
    match pf {
        37 => Ok(Content::MultiPg(route)),
        77 => Ok(Content::Control(route)),
        78 => Ok(Content::Data(route)),
        _ => Err(Refusal::NotTaken),
    }
}

// The verdict on a frame's identifier and its number of data bytes.
#[tactic(auto, unfolding(crate::specs::Judge::judged))]
pub fn judge(id: u32, bytes: usize, own: Address) -> Result<Content, Refusal>
    ensures { result ≡ judged own id bytes }
{
    if 536870912 <= id {
        return Err(Refusal::IdentifierRange);
    }
    if !length::is_length(bytes) {
        return Err(Refusal::FrameLength);
    }
    let f = identifier::read(id);
    if !route_taken(f, own) {
        return Err(Refusal::NotTaken);
    }
    let route = Route {
        sa: f.sa,
        da: Address(f.ps),
    };
    by_format(f.pf, route)
}
