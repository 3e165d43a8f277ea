// Whether opening values, and an open session, are in bounds (01, "Numbered refusals"; 02, E4 and E6).
ghost use Rattle.std.specs.Prelude.{◌≡◌};
ghost use Rattle.session.specs.Bounds.{session_ok};
ghost use Rattle.slots.specs.Bounds.{opening_ok, values_ok};
ghost use Rattle.slots.specs.ByKind.{numbers_ok, source_ok, rts_ok, bam_ok};

use frame::{Address, pgn};
use progress::request::REQUESTS;
use progress::wait::{IdleLimits, Wait};
use session::Session;
use transport::{Key, Kind};

// Own address 0 to 253, idle limit 1 to 60,000.
pub fn opening_ok(own: Address, limit: u32) -> bool
    ensures { result ≡ opening_ok own limit }
{
    (own.0 <= 253) & (1 <= limit) & (limit <= 60000)
}

// The opening values of a receiver, which has two limits.
pub fn values_ok(own: Address, limits: IdleLimits) -> bool
    ensures { result ≡ values_ok own limits }
{
    opening_ok(own, limits.first) & (1 <= limits.second) & (limits.second <= 60000)
}

// The numbers that every kind announces are as an announcement allows.
fn numbers_ok(total: u32, segments: u32, pgn: u32) -> bool
    ensures { result ≡ numbers_ok total segments pgn }
{
    (1 <= total)
        & (total <= 4096)
        & (segments as u64 == (total as u64 + 59) / 60)
        & pgn::is_pgn(pgn)
}

// SA and session number are such as are taken here.
fn source_ok(key: Key, own: Address) -> bool
    ensures { result ≡ source_ok key own }
{
    (key.sa.0 <= 253) & (key.sa.0 != own.0) & (key.session.0 <= 15)
}

// An RTS goes to the own address and has MAX SGMTS, at most five requests made, and a last granted segment of the message.
fn rts_ok(da: u8, own: u8, max: u8, requests: u8, granted: u32, segments: u32) -> bool
    ensures { result ≡ rts_ok da own max requests granted segments }
{
    (da == own) & ((1 <= max) & ((requests <= REQUESTS) & ((1 <= granted) & (granted <= segments))))
}

// A BAM goes to 255, waits for a segment of the message or the one after its last, and has only the second wait.
#[tactic(auto, unfolding(progress::specs::Waits::is_second))]
fn bam_ok(da: u8, next: u32, segments: u32, wait: Wait) -> bool
    ensures { result ≡ bam_ok da next segments wait }
{
    (da == 255) & ((1 <= next) & ((next as u64 <= segments as u64 + 1) & (wait == Wait::Second)))
}

// Numbers go to each test, and no part of the session whole: it is read out of a record's bytes, and only what is tested is.
pub fn session_ok(s: Session, own: Address) -> bool
    ensures { result ≡ session_ok own s }
{
    let a = s.announced;
    let p = s.progress;
    let kind = a.kind;
    let key = a.key;
    let wait = p.wait;
    if !numbers_ok(a.total.0, a.segments.0, a.pgn) {
        return false;
    }
    if !source_ok(key, own) {
        return false;
    }
    match kind {
        Kind::Rts => {
            if !rts_ok(
                key.da.0,
                own.0,
                a.max,
                p.requests,
                p.granted.0,
                a.segments.0,
            ) {
                return false;
            }
            p.taken.agree(a.segments.0, p.missing)
        }
        Kind::Bam => bam_ok(key.da.0, p.next.0, a.segments.0, wait),
    }
}
