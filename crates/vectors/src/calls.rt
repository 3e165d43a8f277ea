// Transfers through the receiver's calls: Figures A1, A3 and A6, a slot full of old bytes, and nine senders. What is printed are the
// program's lines.
use answer::place::{bytes_of, cut, place_of};
use engine::call::take_frame;
use frame::Address;
use frame::octet::low_byte;
use progress::wait::IdleLimits;
use receiver::Receiver;
use record_bytes::layout::write_record;
use report::answer_lines::write_answer;
use std::io;

// What a transfer announces.
#[derive(Clone, Copy)]
struct Transfer {
    sa: u8,
    session: u8,
    total: u32,
    segments: u32,
    max: u8,
    pgn: u32,
}

fn print(rt: &impl Print, written: Option<usize>, lines: &[u8]) -> io::Result<()> {
    match written {
        Some(n) => rt.write_all(cut(lines, 0, n)),
        None => println!(rt; "short"),
    }
}

// One frame taken, and its lines.
fn take(
    rt: &impl Print,
    receiver: &mut [u8],
    id: u32,
    bytes: &[u8],
    store: &mut [u8],
) -> io::Result<()> {
    let answer = take_frame(receiver, id, bytes, store);
    let message = bytes_of(place_of(answer), bytes, store);
    let mut lines = [0u8; 20000];
    let written = write_answer(&mut lines, 0, bytes, answer, message);
    print(rt, written, &lines)
}

// The bytes of an RTS, a BAM or an EOMS.
fn control(t: Transfer, kind: u8, max: u8, assurance: u8) -> [u8; 12] {
    [
        t.session % 16 * 16 + kind % 16,
        low_byte(t.total),
        low_byte(t.total / 256),
        low_byte(t.total / 65536),
        low_byte(t.segments),
        low_byte(t.segments / 256),
        low_byte(t.segments / 65536),
        max,
        assurance,
        low_byte(t.pgn),
        low_byte(t.pgn / 256),
        low_byte(t.pgn / 65536),
    ]
}

fn announce(rt: &impl Print, receiver: &mut [u8], t: Transfer, store: &mut [u8]) -> io::Result<()> {
    let bytes = control(t, 0, t.max, 0);
    take(rt, receiver, 0x1C4D2100 + t.sa as u32, &bytes, store)
}

fn finish(rt: &impl Print, receiver: &mut [u8], t: Transfer, store: &mut [u8]) -> io::Result<()> {
    let bytes = control(t, 2, 0, 0);
    take(rt, receiver, 0x1C4D2100 + t.sa as u32, &bytes, store)
}

// Byte j of the data of segment n is 7 times the sender, 3 times n and j together, in one byte.
fn fill(bytes: &mut [u8; 64], sa: u8, n: u32) {
    let mut value = sa as u32 % 256 * 7 + n % 256 * 3;
    for byte in &mut bytes[4..] {
        *byte = low_byte(value);
        value = value % 256 + 1;
    }
}

fn send_segment(
    rt: &impl Print,
    receiver: &mut [u8],
    t: Transfer,
    n: u32,
    store: &mut [u8],
) -> io::Result<()> {
    let mut bytes = [0u8; 64];
    fill(&mut bytes, t.sa, n);
    bytes[0] = t.session % 16 * 16;
    bytes[1] = low_byte(n);
    bytes[2] = low_byte(n / 256);
    bytes[3] = low_byte(n / 65536);
    take(rt, receiver, 0x1C4E2100 + t.sa as u32, &bytes, store)
}

// A whole transfer: announced, every segment in order, ended.
fn whole(rt: &impl Print, receiver: &mut [u8], t: Transfer, store: &mut [u8]) -> io::Result<()> {
    announce(rt, receiver, t, store)?;
    for n in 0..t.segments {
        send_segment(rt, receiver, t, n + 1, store)?;
    }
    finish(rt, receiver, t, store)
}

fn open(receiver: &mut [u8]) {
    let limits = IdleLimits {
        first: 1250,
        second: 1250,
    };
    let opened = Receiver::open(Address(33), limits, 0);
    write_record(opened.receiver, receiver);
}

// Figure A3 grants 3 segments and then 1, Figure A1's four are one grant here, Figure A6 announces assurance data.
pub fn figures(rt: &impl Print, receiver: &mut [u8], store: &mut [u8]) -> io::Result<()> {
    open(receiver);
    let a3 = Transfer {
        sa: 0,
        session: 2,
        total: 207,
        segments: 4,
        max: 3,
        pgn: 65259,
    };
    whole(rt, receiver, a3, store)?;
    let a1 = Transfer {
        sa: 0,
        session: 1,
        total: 207,
        segments: 4,
        max: 255,
        pgn: 65259,
    };
    whole(rt, receiver, a1, store)?;
    let a6 = Transfer {
        sa: 0,
        session: 0,
        total: 142,
        segments: 3,
        max: 255,
        pgn: 65260,
    };
    let bam = control(a6, 4, 255, 1);
    take(rt, receiver, 0x1C4DFF00, &bam, store)?;
    let full = Transfer {
        sa: 5,
        session: 3,
        total: 4096,
        segments: 69,
        max: 255,
        pgn: 61184,
    };
    whole(rt, receiver, full, store)
}

fn sender(sa: u8) -> Transfer {
    Transfer {
        sa,
        session: 0,
        total: 61,
        segments: 2,
        max: 255,
        pgn: 61184,
    }
}

fn all_announce(rt: &impl Print, receiver: &mut [u8], store: &mut [u8]) -> io::Result<()> {
    for sa in 1..10 {
        announce(rt, receiver, sender(sa), store)?;
    }
    Ok(())
}

// Segment n of each of the nine, of which the ninth is not open.
fn all_send(rt: &impl Print, receiver: &mut [u8], n: u32, store: &mut [u8]) -> io::Result<()> {
    for sa in 1..10 {
        send_segment(rt, receiver, sender(sa), n, store)?;
    }
    Ok(())
}

fn all_finish(rt: &impl Print, receiver: &mut [u8], store: &mut [u8]) -> io::Result<()> {
    for sa in 1..10 {
        finish(rt, receiver, sender(sa), store)?;
    }
    Ok(())
}

// Eight transfers interleaved, and a ninth for which no slot is free.
pub fn nine_senders(rt: &impl Print, receiver: &mut [u8], store: &mut [u8]) -> io::Result<()> {
    open(receiver);
    all_announce(rt, receiver, store)?;
    all_send(rt, receiver, 1, store)?;
    all_send(rt, receiver, 2, store)?;
    all_finish(rt, receiver, store)
}
