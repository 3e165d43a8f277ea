// The window: the part of the input that is in memory.
ghost use Rattle.std.specs.Prelude.{◌≡◌, take};
ghost use Rattle.replay.specs.Moves.{Behind};

use std::io::{self, Error, Read};

// Reads more bytes after the first kept ones, which stay as they are. Answers how many the window now holds; none where the input is over.
pub fn fill(input: &mut impl Read, window: &mut [u8], kept: usize) -> io::Result<Option<usize>>
    ensures { (take kept window.new ≡ take kept window.old) × Behind kept result }
{
    if window.len() <= kept {
        return Err(Error::other("no room in the window"));
    }
    match input.read(&mut window[kept..])? {
        0 => Ok(None),
        more => Ok(Some(kept + more)),
    }
}
