// The records of the bytes that are there, one after another.
ghost use Rattle.std.specs.Prelude.{◌+◌, ◌<◌, ◌^◌, ◌≡◌, leb, length};
ghost use Rattle.run.specs.Goes.{record_room, why_of, Taken};

use super::step::{Took, Untaken, take_record};

// The room that is kept free for the lines of one record: the longest is a message of 4,096 bytes.
pub const ROOM: usize = 20000;

// Why no further record is taken.
#[derive(Clone, Copy)]
pub enum Stop {
    // the bytes end, between two records or inside one
    Bytes,
    // less than ROOM is free after the lines
    Room,
    // what follows is no record
    Bad,
    // a record was taken whose lines had no room: they are not written
    Lost,
    // the trace is too long to count its bytes or records in 64 bits: nothing is done
    Long,
}

impl From<Untaken> for Stop {
    ghost from_gives = { λ untaken stop. stop ≡ why_of untaken };

    fn from(untaken: Untaken) -> Stop {
        match untaken {
            Untaken::End | Untaken::More => Stop::Bytes,
            Untaken::Bad => Stop::Bad,
            Untaken::Short => Stop::Lost,
        }
    }
}

// How far it went.
#[derive(Clone, Copy)]
pub struct Went {
    // the place after the last record
    pub at: usize,
    // the place after the last line
    pub put: usize,
    // the good records, those before included
    pub records: u64,
    pub stop: Stop,
}

fn has_room(size: usize, put: usize) -> bool
    ensures { result ≡ leb (put + record_room) size }
{
    ROOM <= size.saturating_sub(put)
}

#[tactic(auto, using(crate::proofs::Walks::walk_start))]
pub(crate) fn take_records(
    window: &[u8],
    records: u64,
    receiver: &mut [u8],
    store: &mut [u8],
    lines: &mut [u8],
    put: usize,
) -> Went
    requires { records + length window.now < 2 ^ 64 }
    ensures { Taken window.now records receiver.old store.old lines.old put result
        receiver.new store.new lines.new }
{
    let mut at: usize = 0;
    let mut end = put;
    let mut good = records;
    while has_room(lines.len(), end) {
        match take_record(window, at, receiver, store, lines, end) {
            Ok(Took { next, put }) => {
                at = next;
                end = put;
                good = good + 1;
            }
            Err(untaken) => {
                return Went {
                    at,
                    put: end,
                    records: good,
                    stop: Stop::from(untaken),
                };
            }
        }
    }
    Went {
        at,
        put: end,
        records: good,
        stop: Stop::Room,
    }
}
