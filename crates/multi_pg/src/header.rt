// A group's header: the one decision that the reader, the cursor and the whole frame share (01, "Groups in one frame"; 02, E5).
ghost use Rattle.std.specs.Prelude.{◌≡◌, ◌/◌, ◌%◌};
ghost use Rattle.multi_pg.specs.Services.{service_of};
ghost use Rattle.multi_pg.specs.Header.{pgn_of, headed};

use super::Group;
use frame::pgn::is_pgn;
use frame::refusal::Refusal;

// What a header's first byte says: a group with so many bytes of trailer; none where the frame's groups end, at padding.
// The six bits above the PGN's are the service type and the trailer format: 8 to 15 are service type 1 with its formats 0 to 7 (001,
// Table 9), 16 is service type 2 with format 0. Plain groups are most, so they come first. Comparisons, since a match over the six bits took 6,
// 17 and 72 instructions more to unpack a frame of 1, 4 and 15 groups.
pub fn service_of(first: u8) -> Result<Option<usize>, Refusal>
    ensures { result ≡ service_of (first / 32) (first / 4 % 8) }
{
    let bits = first / 4;
    if bits == 16 {
        return Ok(Some(0));
    }
    if bits < 11 {
        if bits < 9 {
            if bits < 8 {
                return Ok(None);
            }
            return Err(Refusal::TrailerFormat);
        }
        return Ok(Some(4));
    }
    if (bits == 12) | (14 < bits) {
        if 23 < bits {
            return Err(Refusal::ServiceType);
        }
        return Err(Refusal::TrailerFormat);
    }
    Ok(Some(8))
}

// The same of any service type and trailer format, for a packer.
pub fn service_by(service: u8, format: u8) -> Result<Option<usize>, Refusal>
    ensures { result ≡ service_of service format }
{
    if service == 0 {
        return Ok(None);
    }
    if 2 < service {
        return Err(Refusal::ServiceType);
    }
    if 7 < format {
        return Err(Refusal::TrailerFormat);
    }
    service_of(32 * service + 4 * format)
}

// A header's PGN: two bits of its first byte, then the second and the third.
pub fn pgn_of(first: u8, second: u8, third: u8) -> u32
    ensures { result ≡ pgn_of first second third }
{
    65536 * (u32::from(first) % 4) + 256 * u32::from(second) + u32::from(third)
}

// A whole header whose first byte begins a group with so many bytes of trailer: 8, 5 or the group. The length byte says payload, which
// fits into the frame from start on or does not.
pub fn headed_by(
    first: u8,
    pgn: u32,
    payload: usize,
    trailer: usize,
    start: usize,
    fits: bool,
) -> Result<Option<Group>, Refusal>
    ensures { result ≡ headed first pgn payload trailer start fits }
{
    if !is_pgn(pgn) {
        return Err(Refusal::PgnForm);
    }
    if payload < trailer {
        return Err(Refusal::DataCut);
    }
    if !fits {
        return Err(Refusal::DataCut);
    }
    Ok(Some(Group {
        pgn,
        service: first / 32,
        format: first / 4 % 8,
        start,
        len: payload - trailer,
        trailer,
    }))
}
