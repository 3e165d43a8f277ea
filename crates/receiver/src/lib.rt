// The receiver's record: eight slots over one lent store (01, "Life of a session"). What a call does to it is the model in
// specs/Calls.antt; the engine does that to the record's bytes, where they lie.
#![tactic(auto)]

ghost use Rattle.std.specs.Prelude.{◌≡◌};
ghost use Rattle.receiver.specs.Bounds.{opened};

use frame::Address;
use frame::refusal::Refusal;
use progress::grant;
use progress::wait::IdleLimits;
use session::Session;
use slots::bounds;

// The opening values, the last reading, and the slots.
#[derive(Clone, Copy)]
pub struct Receiver {
    pub own: Address,
    pub limits: IdleLimits,
    pub last: u32,
    pub slots: [Option<Session>; 8],
}

#[derive(Clone, Copy)]
pub struct Opened {
    pub receiver: Receiver,
    pub answer: Result<(), Refusal>,
}

impl Receiver {
    pub const SLOTS: usize = slots::SLOTS;

    pub const SLOT_BYTES: usize = slots::SLOT_BYTES;

    // the most segments that one CTS grants
    pub const GRANT: u32 = grant::GRANT as u32;

    // A receiver with no slot open; refused with 23 unless own is 0 to 253 and each limit 1 to 60,000.
    pub fn open(own: Address, limits: IdleLimits, reading: u32) -> Opened
        ensures { result ≡ opened own limits reading }
    {
        let receiver = Receiver {
            own: own,
            limits: limits,
            last: reading,
            slots: [None; 8],
        };
        if bounds::values_ok(own, limits) {
            return Opened {
                receiver: receiver,
                answer: Ok(()),
            };
        }
        Opened {
            receiver: receiver,
            answer: Err(Refusal::OutOfBounds),
        }
    }
}
