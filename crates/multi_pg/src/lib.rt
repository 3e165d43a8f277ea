// Groups in one Multi-PG frame (01, "Groups in one frame"; 02, E5).
#![tactic(auto)]

pub mod header;
pub mod read;

ghost use Rattle.std.specs.Prelude.{◌≡◌, ◌<◌, ◌^◌};
ghost use Rattle.multi_pg.specs.Groups.{end_of, start_of, next_at};

// A group in a frame: what its header says, where its data starts and how long it is, and how long its trailer is, which follows the data.
#[derive(Clone, Copy, PartialEq, Eq, Debug)]
pub struct Group {
    pub pgn: u32,
    pub service: u8,
    pub format: u8,
    pub start: usize,
    pub len: usize,
    pub trailer: usize,
}

// The place that a reader has come to, for a caller that holds no borrow of the frame (docs/PROMISES.md names it and its calls);
// reader::Reader is it with its frame, as an iterator.
#[derive(Clone, Copy, PartialEq, Eq, Debug)]
pub struct Cursor {
    pub at: usize,
}

impl Group {
    // The place after the group.
    pub fn end(self) -> usize
        requires { end_of self < 2 ^ 64 }
        ensures { result ≡ end_of self }
    {
        self.start + self.len + self.trailer
    }
}

impl Cursor {
    // A reader over a frame, which is judged whole first. A refused frame gives out no group.
    pub fn over(frame: &[u8]) -> Cursor
        ensures { result.at ≡ start_of frame.now }
    {
        match read::judge(frame) {
            Ok(()) => Cursor { at: 0 },
            Err(_) => Cursor { at: frame.len() },
        }
    }

    // The group at the reader's place and the reader after it.
    pub fn next(self, frame: &[u8]) -> Option<(Group, Cursor)>
        ensures { result ≡ next_at frame.now self.at }
    {
        let group = read::step(frame, self.at).ok()??;
        Some((group, Cursor { at: group.end() }))
    }
}
