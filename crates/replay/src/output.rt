// The lines, gathered and written many at a time.
use answer::place::cut;
use std::io::{self, Error};

// What the system says of a call that failed: on standard error, as far as that takes it.
pub fn tell(rt: &impl Eprint, call: &str, error: &Error) {
    let _told = eprintln!(rt; "{call}: {error}");
}

// Writes the first n bytes. Where that fails, the error is told as well as answered.
pub fn flush(rt: &(impl Print + Eprint), lines: &[u8], n: usize) -> io::Result<()> {
    rt.write_all(cut(lines, 0, n))
        .inspect_err(|error| tell(rt, "write", error))
}

// What no call of the system says: on standard error.
pub fn complain(rt: &impl Eprint, message: &str) {
    let _told = eprintln!(rt; "{message}");
}
