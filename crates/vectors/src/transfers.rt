// Figures of section 6.6: transfer frames, with the numbers of Figures A1 and A6.
use super::show;
use frame::judge::Route;
use frame::{Address, ByteCount, SegmentNumber, SessionNumber};
use session::announcement;
use std::io;
use transport::abort::Abort;
use transport::announcement::Announcement;
use transport::control::Control;
use transport::cts::Cts;
use transport::eoma::Eoma;
use transport::eoms::Status;
use transport::response::Response;
use transport::{Key, Kind, control, head, response, segment};

// An announcement's fields, and what its form is judged to be.
fn announced(rt: &impl Print, a: Announcement) -> io::Result<()> {
    let kind = match a.kind {
        Kind::Rts => "rts",
        Kind::Bam => "bam",
    };
    let (total, segments) = (a.total.0, a.segments.0);
    print!(rt;
        " {kind} {total} {segments} {} {} {}",
        a.max, a.assurance, a.pgn
    )?;
    match announcement::judge_form(a) {
        Ok(()) => print!(rt; " good"),
        Err(r) => show::refused(rt, r),
    }
}

fn status(rt: &impl Print, s: Status) -> io::Result<()> {
    print!(rt;
        " eoms {} {} {} {}",
        s.total.0, s.segments.0, s.assurance, s.pgn
    )
}

// A control frame from address 0 to address 33, read.
fn control_frame(rt: &impl Print, name: &str, bytes: &[u8]) -> io::Result<()> {
    let route = Route {
        sa: Address(0),
        da: Address(33),
    };
    let key = head::key_of(route, bytes);
    print!(rt; "{name} session {}", key.session.0)?;
    match control::read_control(bytes) {
        Ok(Control::Announce(a)) => announced(rt, a)?,
        Ok(Control::EndOfMessage(s)) => status(rt, s)?,
        Ok(Control::Abort(pgn)) => print!(rt; " abort {pgn}")?,
        Err(r) => show::refused(rt, r)?,
    }
    println!(rt; "")
}

// A response written: its identifier and its bytes.
fn written(rt: &impl Print, name: &str, f: Response) -> io::Result<()> {
    let identifier = response::identifier(f);
    print!(rt; "{name} {identifier:08x}")?;
    show::bytes(rt, &response::bytes(f))?;
    println!(rt; "")
}

fn data_frame(rt: &impl Print, name: &str, bytes: &[u8]) -> io::Result<()> {
    print!(rt; "{name}")?;
    match segment::read_segment(bytes) {
        Ok(s) => {
            let due = session::segment::due(ByteCount(207), s.number);
            print!(rt;
                " format {} segment {} room {} due {due}",
                s.format, s.number.0, s.room
            )?;
        }
        Err(r) => show::refused(rt, r)?,
    }
    println!(rt; "")
}

// Control frames that come in: an RTS and an EOMS of Figure A1, the BAM of Figure A6, and Aborts in either role.
pub fn received(rt: &impl Print) -> io::Result<()> {
    let rts = [0x10u8, 0xCF, 0, 0, 4, 0, 0, 0xFF, 0, 0xEB, 0xFE, 0];
    control_frame(rt, "figure 31", &rts)?;
    let eoms = [0x12u8, 0xCF, 0, 0, 4, 0, 0, 0, 0, 0xEB, 0xFE, 0];
    control_frame(rt, "figure 33", &eoms)?;
    let bam = [0x04u8, 0x8E, 0, 0, 3, 0, 0, 0xFF, 1, 0xEC, 0xFE, 0];
    control_frame(rt, "figure 36", &bam)?;
    let originator = [
        0x1Fu8, 0xFF, 0xFF, 0xFF, 0xFF, 0xFF, 0xFF, 0xFC, 3, 0xEB, 0xFE, 0,
    ];
    control_frame(rt, "figure 35", &originator)?;
    let responder = [
        0x1Fu8, 0xFF, 0xFF, 0xFF, 0xFF, 0xFF, 0xFF, 0xFD, 3, 0xEB, 0xFE, 0,
    ];
    control_frame(rt, "figure 35", &responder)
}

// Control frames that go out: Figure A1's CTS of two segments and of none, its EOMA, and an Abort for a time-out.
pub fn sent(rt: &impl Print) -> io::Result<()> {
    let key = Key {
        sa: Address(0),
        da: Address(33),
        session: SessionNumber(1),
    };
    let two = Cts {
        key,
        next: SegmentNumber(1),
        count: 2,
        pgn: 65259,
    };
    written(rt, "figure 32", Response::Cts(two))?;
    let hold = Cts {
        key,
        next: SegmentNumber(3),
        count: 0,
        pgn: 65259,
    };
    written(rt, "figure 32", Response::Cts(hold))?;
    let eoma = Eoma {
        key,
        total: ByteCount(207),
        segments: SegmentNumber(4),
        pgn: 65259,
    };
    written(rt, "figure 34", Response::Eoma(eoma))?;
    let abort = Abort {
        key,
        reason: 3,
        pgn: 65259,
    };
    written(rt, "figure 35", Response::Abort(abort))
}

// Figure A1's segments 1 and 4: 60 bytes, and 27 with one byte of padding.
pub fn segments(rt: &impl Print) -> io::Result<()> {
    let mut first = [0x33u8; 64];
    first[0] = 0x10;
    first[1] = 1;
    first[2] = 0;
    first[3] = 0;
    data_frame(rt, "figure 37", &first)?;
    let mut last = [0x33u8; 32];
    last[0] = 0x10;
    last[1] = 4;
    last[2] = 0;
    last[3] = 0;
    last[31] = 0xAA;
    data_frame(rt, "figure 38", &last)
}
