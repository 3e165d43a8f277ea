// A slot read off its bytes, and the codes of its state, kind and wait.
ghost use Rattle.std.specs.Prelude.{◌≡◌, length};
ghost use Rattle.record_bytes.specs.Layout.{is_code, codes_ok, kind_byte, kind_at, wait_byte, wait_at, progress_at, session_at, slot_at};
ghost use Rattle.record_bytes.specs.Places.{slot_length};

use super::long::long_at;
use super::places::{
    DA_AT, GRANTED_AT, KIND_AT, MARK_AT, MAX_AT, MISSING_AT, NEXT_AT, PGN_AT, REQUESTS_AT, SA_AT,
    SEGMENTS_AT, SESSION_AT, STATE_AT, TAKEN_AT, TAKEN_HIGH_AT, TOTAL_AT, WAIT_AT,
};
use frame::{Address, ByteCount, SegmentNumber, SessionNumber};
use progress::wait::Wait;
use progress::{Announced, Progress};
use segments::Segments;
use session::Session;
use transport::{Key, Kind};
use words::word_at;

fn is_code(byte: u8) -> bool
    ensures { result ≡ is_code byte }
{
    (byte == 1) | (byte == 2)
}

// Whether a slot's state, kind and wait are codes: free, or open by RTS or by BAM and in the first wait or the second.
pub fn codes_ok(state: u8, kind: u8, wait: u8) -> bool
    ensures { result ≡ codes_ok state kind wait }
{
    (state == 0) | ((state == 1) & (is_code(kind) & is_code(wait)))
}

pub fn kind_byte(kind: Kind) -> u8
    ensures { result ≡ kind_byte kind }
{
    match kind {
        Kind::Rts => 1,
        Kind::Bam => 2,
    }
}

pub fn wait_byte(wait: Wait) -> u8
    ensures { result ≡ wait_byte wait }
{
    match wait {
        Wait::First => 1,
        Wait::Second => 2,
    }
}

fn wait_at(byte: u8) -> Wait
    ensures { result ≡ wait_at byte }
{
    if byte == 2 {
        return Wait::Second;
    }
    Wait::First
}

fn kind_at(byte: u8) -> Kind
    ensures { result ≡ kind_at byte }
{
    if byte == 2 {
        return Kind::Bam;
    }
    Kind::Rts
}

// How far the session of an open slot has come.
fn progress_at(piece: &[u8]) -> Progress
    requires { length piece.now ≡ slot_length }
    ensures { result ≡ progress_at piece.now }
{
    let wait = wait_at(piece[WAIT_AT]);
    Progress {
        next: SegmentNumber(word_at(piece, NEXT_AT)),
        taken: Segments {
            low: long_at(piece, TAKEN_AT),
            high: piece[TAKEN_HIGH_AT],
        },
        missing: word_at(piece, MISSING_AT),
        requests: piece[REQUESTS_AT],
        granted: SegmentNumber(word_at(piece, GRANTED_AT)),
        mark: word_at(piece, MARK_AT),
        wait: wait,
    }
}

// The session that the piece of an open slot says.
pub fn session_at(piece: &[u8]) -> Session
    requires { length piece.now ≡ slot_length }
    ensures { result ≡ session_at piece.now }
{
    let kind = kind_at(piece[KIND_AT]);
    let progress = progress_at(piece);
    Session {
        announced: Announced {
            key: Key {
                sa: Address(piece[SA_AT]),
                da: Address(piece[DA_AT]),
                session: SessionNumber(piece[SESSION_AT]),
            },
            kind: kind,
            total: ByteCount(word_at(piece, TOTAL_AT)),
            segments: SegmentNumber(word_at(piece, SEGMENTS_AT)),
            max: piece[MAX_AT],
            pgn: word_at(piece, PGN_AT),
        },
        progress: progress,
    }
}

// The slot that a piece says.
pub fn slot_at(piece: &[u8]) -> Option<Session>
    requires { length piece.now ≡ slot_length }
    ensures { result ≡ slot_at piece.now }
{
    if piece[STATE_AT] == 1 {
        return Some(session_at(piece));
    }
    None
}
