// A reader that holds its frame and its place, and gives the frame's groups one after another (01, "Groups in one frame").
#![tactic(auto)]

ghost use Rattle.std.specs.Prelude.{◌≡◌, option_map};
ghost use Rattle.std.specs.Iterator.{YieldsFirst, item_count};
ghost use Rattle.multi_pg.specs.Groups.{groups_of};
ghost use Rattle.reader.specs.Runs.{over_of, next_of, rest_of, groups_left};

use multi_pg::{Cursor, Group};

#[derive(Clone, Copy, Debug)]
pub struct Reader<'a> {
    pub frame: &'a [u8],
    pub at: usize,
}

impl<'a> Reader<'a> {
    // A reader over a frame, which is judged whole first: of a refused one it gives out no group, and read::judge has the refusal.
    pub fn over(frame: &'a [u8]) -> Reader<'a>
        ensures place { result ≡ over_of frame.entry }
        ensures groups { groups_left result ≡ groups_of frame.now }
    {
        let start = Cursor::over(frame);
        Reader {
            frame,
            at: start.at,
        }
    }
}

impl<'a> Iterator for Reader<'a> {
    type Item = Group;

    // the next group, or none at the end; the reader of the rest; and so the first of the groups that are left
    ghost next_gives = { λ reader given after. (given ≡ option_map (λ next. next.0) (next_of reader))
        × (after ≡ rest_of reader)
        × YieldsFirst groups_left reader given after };

    ghost remaining = { item_count groups_left };

    fn next(&mut self) -> Option<Group> {
        let (group, behind) = Cursor { at: self.at }.next(self.frame)?;
        self.at = behind.at;
        Some(group)
    }
}
