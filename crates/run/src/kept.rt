// The bytes that wait for the rest of their record.
ghost use Rattle.std.specs.Prelude.{◌≡◌};
ghost use Rattle.run.specs.Takes.{kept_in};

// The bytes between two places of the window to its front. Answers how many they are; none where the places are not in the window.
pub fn keep(window: &mut [u8], from: usize, to: usize) -> usize
    ensures { (result, window.new) ≡ kept_in window.old from to }
{
    if (from <= to) & (to <= window.len()) {
        window.copy_within(from..to, 0);
        return to - from;
    }
    0
}
