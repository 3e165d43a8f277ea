// The data lengths of a CAN FD frame (01, "Numbers that hold everywhere"), and what is found from their list.
ghost use Rattle.std.specs.Prelude.{◌≡◌};
ghost use Rattle.frame.specs.Lengths.{is_length, least_length, frame_length};

// In rising order, so that the first that holds a need is the least.
const LENGTHS: [usize; 16] = [0, 1, 2, 3, 4, 5, 6, 7, 8, 12, 16, 20, 24, 32, 48, 64];

// Whether n is one of the lengths. Every frame is asked this: the compiler makes a few comparisons of it (docs/SPEED.md).
pub fn is_length(n: usize) -> bool
    ensures { result ≡ is_length n }
{
    LENGTHS.contains(&n)
}

// The least length that holds need bytes; nothing for more than 64.
pub fn least_length(need: usize) -> Option<usize>
    ensures { result ≡ least_length need }
{
    LENGTHS.iter().copied().find(|length| need <= *length)
}

// The length of a frame that holds need bytes; 64 for more, which no caller has.
#[tactic(auto, unfolding(crate::specs::Lengths::frame_length), using(crate::proofs::LengthLaws::or_longest))]
pub fn frame_length(need: usize) -> usize
    ensures { result ≡ frame_length need }
{
    least_length(need).unwrap_or(64)
}
