// The packer of Multi-PG frames (01, "Groups in one frame"; 02, E5).
#![tactic(auto)]

ghost use Rattle.std.specs.Prelude.{◌≡◌};
ghost use Rattle.packing.specs.Packing.{request_of, packed};

use frame::length::frame_length;
use frame::refusal::Refusal;
use met::all_pgns;
use write::pad;

mod met;
mod trailer;
mod write;

// A group for each place of the first five lists: its service type, trailer format, PGN, how many bytes of data it has, and how many of
// trailer. data holds the data of all groups back to back, assured their trailers.
// They stay parallel slices, since the C interface lends each of them by itself (dwb_pack).
#[derive(Clone, Copy)]
pub struct Request<'a> {
    pub services: &'a [u8],
    pub formats: &'a [u8],
    pub pgns: &'a [u32],
    pub lengths: &'a [u8],
    pub trailers: &'a [u8],
    pub data: &'a [u8],
    pub assured: &'a [u8],
}

impl<'a> Request<'a> {
    // Packs the groups into the front of out, and answers how long the frame is there.
    pub fn pack(self, out: &mut [u8]) -> Result<usize, Refusal>
        ensures { (result, out.new) ≡ packed (request_of self.entry) out.old }
    {
        let Some(bytes) = self.fitting(out.len()) else {
            return Err(self.first_fault());
        };
        // what fits has trailers as their formats have them, and so no 6 and no 7
        if !all_pgns(self.pgns) {
            return Err(Refusal::PgnForm);
        }
        let n = frame_length(bytes);
        self.write_groups(out);
        pad(out, bytes, n - bytes);
        Ok(n)
    }
}
