// A count for each address (02, E7): the sum of all counts, half of the test that every one of them is right (specs/OnePass.antt).
#![tactic(auto)]

ghost use Rattle.std.specs.Prelude.{◌≡◌, ◌≤◌, length};
ghost use Rattle.counts.specs.Counts.{sum_of};

// The sum of the counts. It is kept in 16 bits, which 256 bytes cannot pass, so that a vector holds more of them.
pub fn sum(counts: &[u8]) -> u32
    requires { length counts.now ≤ 256 }
    ensures { result ≡ sum_of counts.now }
{
    let total: u16 = counts.iter().map(|count| u16::from(*count)).sum();
    u32::from(total)
}
