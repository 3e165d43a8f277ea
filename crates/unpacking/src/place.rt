// Whether a frame can have a second group.
ghost use Rattle.std.specs.Prelude.{◌≡◌};
ghost use Rattle.unpacking.specs.Places.{first_is_last};

// Whether the place after a first group is an end, as it is in a frame of one group.
pub fn first_is_last(frame: &[u8]) -> bool
    ensures { result ≡ first_is_last frame.now }
{
    if frame.len() < 4 {
        return true;
    }
    let end = 4 + usize::from(frame[3]);
    if frame.len() <= end {
        return true;
    }
    frame[end] / 32 == 0
}
