// Bytes of one slice copied into another: the one loop that does it, and 60 bytes at once.
#![tactic(auto)]

ghost use Rattle.std.specs.Prelude.{◌≡◌, ◌+◌, ◌≤◌, length, drop};
ghost use Rattle.std.proofs.Math.Seq.{paste};

// Copies n bytes of src, from its index from on, into out from at on. A loop, since `copy_from_slice` calls memmove, and the archive calls
// nothing but memcpy and memset.
#[tactic(auto, using(crate::proofs::Turns::copied_turn))]
pub fn copy(out: &mut [u8], at: usize, src: &[u8], from: usize, n: usize)
    requires { (at + n ≤ length out.old) × (from + n ≤ length src.now) }
    ensures { out.new ≡ paste out.old at (drop from src.now) n }
{
    for (j, byte) in src[from..from + n].iter().enumerate() {
        out[at + j] = *byte;
    }
}

// 60 bytes, as many as every segment but the last has, by way of an array of their own, whose length is known and which lies in no lent
// buffer, so that both copies are a few moves: 20 instructions in place of 130.
pub fn copy_sixty(out: &mut [u8], at: usize, src: &[u8], from: usize)
    requires { (at + 60 ≤ length out.old) × (from + 60 ≤ length src.now) }
    ensures { out.new ≡ paste out.old at (drop from src.now) 60 }
{
    let mut data = [0u8; 60];
    copy(&mut data, 0, src, from, 60);
    copy(out, at, &data, 0, 60);
}
