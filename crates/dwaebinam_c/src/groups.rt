// The groups of a frame, out of it and into it.
ghost use Rattle.std.specs.Prelude.{◌≡◌};
ghost use Rattle.dwaebinam.specs.Packing.{packed_in};
ghost use Rattle.dwaebinam.specs.Unpacking.{unpacked_in};

#[unsafe(no_mangle)]
pub extern "C" fn dwb_groups(bytes: &[u8], groups: &mut [u32]) -> usize
    ensures { (result, groups.new) ≡ unpacked_in bytes.now groups.old }
{
    dwaebinam::groups::dwb_groups(bytes, groups)
}

#[unsafe(no_mangle)]
pub extern "C" fn dwb_pack(
    services: &[u8],
    formats: &[u8],
    pgns: &[u32],
    lengths: &[u8],
    trailers: &[u8],
    data: &[u8],
    assured: &[u8],
    out: &mut [u8],
) -> usize
    ensures { (result, out.new) ≡ packed_in (record {
      services = services.now;
      formats = formats.now;
      pgns = pgns.now;
      lengths = lengths.now;
      trailers = trailers.now;
      joined = «data».now;
      assured = assured.now;
    }) out.old }
{
    dwaebinam::pack::dwb_pack(
        services, formats, pgns, lengths, trailers, data, assured, out,
    )
}
