// The packer for a program in C (include/dwaebinam.h).
ghost use Rattle.std.specs.Prelude.{◌≡◌, ◌*◌};
ghost use Rattle.frame.specs.Refusals.{number_of};
ghost use Rattle.dwaebinam.specs.Packing.{packed_in};

use frame::refusal;
use frame::refusal::Refusal;
use packing::Request;

// A refusal in place of a length or a count, above all of them.
pub fn refused(x: Refusal) -> usize
    ensures { result ≡ 256 * number_of x }
{
    256 * usize::from(refusal::number(x))
}

// Packs groups into the front of out: the frame's length, or 256 times the number of the refusal. C lends each list of the request by itself.
pub fn dwb_pack(
    services: &[u8],
    formats: &[u8],
    pgns: &[u32],
    lengths: &[u8],
    trailers: &[u8],
    data: &[u8],
    assured: &[u8],
    out: &mut [u8],
) -> usize
    ensures { (result, out.new) ≡ packed_in (record {
      services = services.now;
      formats = formats.now;
      pgns = pgns.now;
      lengths = lengths.now;
      trailers = trailers.now;
      joined = «data».now;
      assured = assured.now;
    }) out.old }
{
    let request = Request {
        services,
        formats,
        pgns,
        lengths,
        trailers,
        data,
        assured,
    };
    request.pack(out).unwrap_or_else(refused)
}
