// What several lines have in common.
use frame::refusal::{self, Refusal};
use std::io;

pub fn refused(rt: &impl Print, r: Refusal) -> io::Result<()> {
    print!(rt; " refused {}", refusal::number(r))
}

// Bytes in hexadecimal.
pub fn bytes(rt: &impl Print, s: &[u8]) -> io::Result<()> {
    for x in s {
        print!(rt; " {x:02x}")?;
    }
    Ok(())
}
