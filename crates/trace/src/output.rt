// Bytes put into a lent output.
ghost use Rattle.std.specs.Prelude.{◌≡◌, ◌+◌, ◌<◌, ◌≤◌, MatchResult};
ghost use Rattle.trace.specs.declared.output.WriteError.TheVariants.{NoRoom};

// Why nothing is written.
#[derive(Clone, Copy, PartialEq, Eq, Debug)]
pub enum WriteError {
    // the output has no room
    NoRoom,
    // a frame has at most 64 bytes
    TooLong,
}

// Refuses need bytes that don't fit from a place on into an output of the size.
pub(crate) fn check_room(size: usize, at: usize, need: usize) -> Result<(), WriteError>
    ensures { MatchResult result (λ _. at + need ≤ size) (λ e. (e ≡ NoRoom) × (size < at + need)) }
{
    if at <= size && need <= size - at {
        Ok(())
    } else {
        Err(WriteError::NoRoom)
    }
}
