// Which of two silences a session is in, and how long each may last (02, E4; J1939-22, 6.14).
ghost use Rattle.std.specs.Prelude.{◌≡◌};
ghost use Rattle.progress.specs.Waits.{wait_after, limit_in};

#[derive(Clone, Copy, PartialEq, Eq)]
pub enum Wait {
    // after a CTS, for the first segment that it grants
    First,
    // after a segment that brought no CTS, and always in a BAM
    Second,
}

// The idle limits in milliseconds, one a wait.
#[derive(Clone, Copy)]
pub struct IdleLimits {
    pub first: u32,
    pub second: u32,
}

// The wait that a session is in after a CTS, or after what brought none.
pub fn wait_after(cts: bool) -> Wait
    ensures { result ≡ wait_after cts }
{
    if cts { Wait::First } else { Wait::Second }
}

// The limit in force.
pub fn limit_in(limits: IdleLimits, wait: Wait) -> u32
    ensures { result ≡ limit_in limits wait }
{
    match wait {
        Wait::First => limits.first,
        Wait::Second => limits.second,
    }
}
