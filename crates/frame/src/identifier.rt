// The 29-bit identifier (01, "Identifier").
ghost use Rattle.std.specs.Prelude.{◌≡◌};
ghost use Rattle.frame.specs.Identifiers.{identifier_of, built};

use super::Address;

#[derive(Clone, Copy)]
pub struct Identifier {
    pub priority: u8,
    pub extended_data_page: u8,
    pub data_page: u8,
    pub pf: u8,
    pub ps: u8,
    pub sa: Address,
}

// The fields of an identifier's low 29 bits.
pub fn read(id: u32) -> Identifier
    ensures { result ≡ identifier_of id }
{
    Identifier {
        priority: (id / 67108864 % 8) as u8,
        extended_data_page: (id / 33554432 % 2) as u8,
        data_page: (id / 16777216 % 2) as u8,
        pf: (id / 65536 % 256) as u8,
        ps: (id / 256 % 256) as u8,
        sa: Address((id % 256) as u8),
    }
}

// The identifier that has these fields; none where a field is larger than its place. Our own frames are made by transport::head, whose fronts are fixed.
pub fn build(f: Identifier) -> Option<u32>
    ensures { result ≡ built f }
{
    if 8 <= f.priority {
        return None;
    }
    if 2 <= f.extended_data_page {
        return None;
    }
    if 2 <= f.data_page {
        return None;
    }
    Some(
        67108864 * u32::from(f.priority)
            + 33554432 * u32::from(f.extended_data_page)
            + 16777216 * u32::from(f.data_page)
            + 65536 * u32::from(f.pf)
            + 256 * u32::from(f.ps)
            + u32::from(f.sa.0),
    )
}
