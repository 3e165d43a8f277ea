// A record's fields put into a lent buffer, each at its place: what did not change is not written.
ghost use Rattle.std.specs.Prelude.{◌≡◌, [], ◌+◌, ◌<◌, ◌≤◌, length};
ghost use Rattle.std.proofs.Math.Seq.{paste};
ghost use Rattle.record_bytes.specs.Layout.{announced_bytes, gathered_bytes, progress_bytes, slot_bytes, head_bytes};
ghost use Rattle.words.specs.Words.{low4};
ghost use Rattle.record_bytes.specs.Places.{record_length, head_length, slot_length, slot_place, announced_length, progress_length, gathered_length, taken_place, progress_place, last_place};

use super::long::put_long;
use super::places::{
    FIRST_LIMIT_AT, GRANTED_AT, LAST_AT, MARK_AT, MAX_AT, MISSING_AT, NEXT_AT, OWN_AT, PGN_AT,
    RECORD_BYTES, REQUESTS_AT, SECOND_LIMIT_AT, SEGMENTS_AT, SLOT_BYTES, TAKEN_AT, TAKEN_HIGH_AT,
    TOTAL_AT, WAIT_AT, slot_place,
};
use super::slot::{kind_byte, wait_byte};
use octets::copy;
use progress::{Announced, Progress};
use receiver::Receiver;
use session::Session;
use words::put_word;

// Writes what was announced, as an open slot begins; it begins at at.
fn put_announced(out: &mut [u8], at: usize, a: Announced)
    requires { at + announced_length ≤ length out.old }
    ensures { out.new ≡ paste out.old at (announced_bytes a) announced_length }
{
    let kind = a.kind;
    let front = [1, kind_byte(kind), a.key.sa.0, a.key.da.0, a.key.session.0];
    let max = [a.max];
    copy(out, at, &front, 0, TOTAL_AT);
    put_word(out, at + TOTAL_AT, a.total.0);
    put_word(out, at + SEGMENTS_AT, a.segments.0);
    copy(out, at + MAX_AT, &max, 0, 1);
    put_word(out, at + PGN_AT, a.pgn);
}

// Writes which segments are in, how many are not and the requests made for them, into the slot that begins at at.
fn put_gathered(out: &mut [u8], at: usize, p: Progress)
    requires { at + slot_length ≤ length out.old }
    ensures { out.new ≡ paste out.old (at + taken_place) (gathered_bytes p) gathered_length }
{
    let high = [p.taken.high];
    let requests = [p.requests];
    put_long(out, at + TAKEN_AT, p.taken.low);
    copy(out, at + TAKEN_HIGH_AT, &high, 0, 1);
    put_word(out, at + MISSING_AT, p.missing);
    copy(out, at + REQUESTS_AT, &requests, 0, 1);
}

// Writes how far the session of slot i has come, after the bytes that stay as they were announced.
pub fn put_progress(out: &mut [u8; RECORD_BYTES], i: usize, p: Progress)
    requires { i < 8 }
    ensures { out.new ≡ paste out.old (progress_place i) (progress_bytes p) progress_length }
{
    let at = slot_place(i);
    let wait = p.wait;
    let code = [wait_byte(wait)];
    put_word(out, at + NEXT_AT, p.next.0);
    put_word(out, at + GRANTED_AT, p.granted.0);
    put_word(out, at + MARK_AT, p.mark);
    copy(out, at + WAIT_AT, &code, 0, 1);
    put_gathered(out, at, p);
}

// Writes slot i; a free one is all zeros.
pub fn put_slot(out: &mut [u8; RECORD_BYTES], i: usize, s: Option<Session>)
    requires { i < 8 }
    ensures { out.new ≡ paste out.old (slot_place i) (slot_bytes s) slot_length }
{
    let at = slot_place(i);
    match s {
        None => {
            let zeros = [0u8; SLOT_BYTES];
            copy(out, at, &zeros, 0, SLOT_BYTES);
        }
        Some(o) => {
            let a = o.announced;
            let p = o.progress;
            put_announced(out, at, a);
            put_progress(out, i, p);
        }
    }
}

// Writes the last reading, after own address and idle limits.
pub fn put_last(out: &mut [u8; RECORD_BYTES], reading: u32)
    ensures { out.new ≡ paste out.old last_place (low4 reading []) 4 }
{
    put_word(out, LAST_AT, reading);
}

// Writes the head: own address, both idle limits, last reading.
pub fn put_head(out: &mut [u8; RECORD_BYTES], r: Receiver)
    ensures { out.new ≡ paste out.old 0 (head_bytes r) head_length }
{
    let own = [r.own.0];
    copy(out, OWN_AT, &own, 0, 1);
    put_word(out, FIRST_LIMIT_AT, r.limits.first);
    put_word(out, SECOND_LIMIT_AT, r.limits.second);
    put_last(out, r.last);
}
