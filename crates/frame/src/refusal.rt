// The numbered refusals (01, "Numbered refusals"; 02).
ghost use Rattle.std.specs.Prelude.{◌≡◌};
ghost use Rattle.frame.specs.Refusals.{place_of, number_of, spent_of};

#[derive(Clone, Copy, PartialEq, Eq)]
pub enum Refusal {
    // 1: a length that CAN FD does not have
    FrameLength = 1,
    // 2: an identifier above 29 bits
    IdentifierRange = 2,
    // 3: pages, PF, DA or SA not taken
    NotTaken = 3,
    // 4: fewer than 4 bytes left for a group's header
    HeaderCut = 4,
    // 5: a group's data past the frame's end
    DataCut = 5,
    // 6: a service type that is not taken
    ServiceType = 6,
    // 7: a trailer format that is not taken
    TrailerFormat = 7,
    // 8: a PGN above 18 bits, or with a wrong low byte
    PgnForm = 8,
    // 9: a control frame not of 12 bytes, a data frame under 5
    TransferLength = 9,
    // 10: a control or a role that neither a receiver nor a sender takes
    NeitherTakes = 10,
    // 11: an announcement to the wrong destination, or whose numbers do not agree
    AnnouncementForm = 11,
    // 12: Total Bytes over a slot's
    TooLong = 12,
    // 13: assurance data announced
    Assurance = 13,
    // 14: the key is open already
    KeyOpen = 14,
    // 15: no slot is free
    SlotsFull = 15,
    // 16: no session or transfer is open that it is for
    KeyNotOpen = 16,
    // 17: a format indicator other than 0
    FormatIndicator = 17,
    // 18: segment 0, or one already taken
    AlreadyTaken = 18,
    // 19: a segment beyond the count, or in a BAM beyond the next one
    OutOfSequence = 19,
    // 20: a data frame too short for the data due
    SegmentCut = 20,
    // 21: an end of message status that is not as announced, or that comes too early in a BAM
    StatusMismatch = 21,
    // 22: silence for the idle limit
    Silence = 22,
    // 23: opening values, store length or state out of bounds
    OutOfBounds = 23,
    // 24: a request that the packer cannot meet
    PackRequest = 24,
    // 25: no transfer is free
    TransfersFull = 25,
    // 26: a message of a length that is not announced, or not as announced
    MessageLength = 26,
    // 27: a CTS for a segment that the message does not have
    GrantRange = 27,
    // 21 too: a status that comes too early in an RTS session, whose requests are spent
    RequestsSpent = 28,
}

// The place of a refusal in the list above, from 1. Every number but that of the last is its place, and a place compiles to an addition.
fn place(r: Refusal) -> u8
    ensures { result ≡ place_of r }
{
    r as u8
}

// The number of a refusal in 01 and 02.
pub fn number(r: Refusal) -> u8
    ensures { result ≡ number_of r }
{
    match r {
        Refusal::RequestsSpent => 21,
        _ => place(r),
    }
}

// Which of the two refusals of number 21 it is: 1 for spent requests, 0 for every other refusal. A number, since it is a byte of the answer
// that C reads.
pub fn spent(r: Refusal) -> u8
    ensures { result ≡ spent_of r }
{
    u8::from(r == Refusal::RequestsSpent)
}
