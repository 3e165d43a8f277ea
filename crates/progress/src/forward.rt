// Progress brought forward by a segment (01, "Segment"; "Where each language form belongs"; 02, E6).
ghost use Rattle.std.specs.Prelude.{◌≡◌, ◌<◌};
ghost use Rattle.progress.specs.Forward.{cts_due, next_count, granted_by, next_by, taken_by, missing_by, advanced_by};

use super::grant::grant;
use super::wait::wait_after;
use super::{Announced, Progress};
use frame::SegmentNumber;
use segments::Segments;
use transport::Kind;

// Whether a segment uses the grant up and others remain; after a request for missing ones no segment brings a CTS. Few segments are the last
// granted, so that comes first.
pub fn is_cts_due(p: Progress, a: Announced, n: SegmentNumber) -> bool
    ensures { result ≡ cts_due p a n.0 }
{
    n == p.granted && n.0 < a.segments.0 && a.kind == Kind::Rts && p.requests == 0
}

// The count of the next CTS.
pub fn next_count(a: Announced, n: SegmentNumber) -> u8
    ensures { result ≡ next_count a n.0 }
{
    grant(a.max, a.segments.0.saturating_sub(n.0))
}

// The last granted segment after segment n. A segment number is read off three bytes: a fact of the calls, as records have larger ones.
fn granted_after(p: Progress, a: Announced, n: SegmentNumber) -> u32
    requires { n.0 < 16777216 }
    ensures { result ≡ granted_by p a n.0 }
{
    if is_cts_due(p, a, n) {
        n.0 + u32::from(next_count(a, n))
    } else {
        p.granted.0
    }
}

// The next segment of a BAM; an RTS has none.
fn next_after(kind: Kind, next: u32, n: SegmentNumber) -> u32
    requires { n.0 < 16777216 }
    ensures { result ≡ next_by kind next n.0 }
{
    match kind {
        Kind::Rts => next,
        Kind::Bam => n.0 + 1,
    }
}

// The record of an RTS with segment n in it.
fn taken_after(kind: Kind, taken: Segments, n: SegmentNumber) -> Segments
    ensures { result ≡ taken_by kind taken n.0 }
{
    match kind {
        Kind::Rts => taken.put(n.0),
        Kind::Bam => taken,
    }
}

// One less is missing of an RTS.
fn missing_after(kind: Kind, missing: u32) -> u32
    ensures { result ≡ missing_by kind missing }
{
    match kind {
        Kind::Rts => missing.saturating_sub(1),
        Kind::Bam => missing,
    }
}

// The progress that p lends is brought forward by segment n.
pub fn bring_forward(p: &mut Progress, a: Announced, n: SegmentNumber, last: u32)
    requires { n.0 < 16777216 }
    ensures { p.new ≡ advanced_by p.old a n.0 last }
{
    *p = Progress {
        next: SegmentNumber(next_after(a.kind, p.next.0, n)),
        taken: taken_after(a.kind, p.taken, n),
        missing: missing_after(a.kind, p.missing),
        granted: SegmentNumber(granted_after(*p, a, n)),
        mark: last,
        wait: wait_after(is_cts_due(*p, a, n)),
        ..*p
    };
}

// The same by value: the progress is lent and handed back, so whoever calls this lends nothing.
pub fn brought_forward(p: Progress, a: Announced, n: SegmentNumber, last: u32) -> Progress
    requires { n.0 < 16777216 }
    ensures { result ≡ advanced_by p a n.0 last }
{
    let mut lent = p;
    bring_forward(&mut lent, a, n, last);
    lent
}
