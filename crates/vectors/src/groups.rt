// Figures of section 6.5: contained parameter groups.
use super::show;
use answer::place::cut;
use multi_pg::{Cursor, Group};
use packing::Request;
use std::io;

fn group(rt: &impl Print, g: Group) -> io::Result<()> {
    print!(rt; " pg {} {} {}", g.pgn, g.start, g.len)?;
    if g.service == 1 {
        print!(rt; " format {}", g.format)?;
    }
    Ok(())
}

// The trailer of a group that ends at a place.
fn trailer(rt: &impl Print, frame: &[u8], end: usize, len: usize) -> io::Result<()> {
    if (len == 0) | (end < len) {
        return Ok(());
    }
    print!(rt; " trailer")?;
    show::bytes(rt, cut(frame, end - len, len))
}

// The judgement on a frame and its groups: PGN, place and length of the data; where it has one, trailer format and trailer. A frame has
// 16 groups at most.
fn read(rt: &impl Print, name: &str, frame: &[u8]) -> io::Result<()> {
    print!(rt; "{name}")?;
    match multi_pg::read::judge(frame) {
        Ok(()) => print!(rt; " good")?,
        Err(r) => show::refused(rt, r)?,
    }
    let mut c = Cursor::over(frame);
    for _ in 0..16 {
        if let Some((g, after)) = c.next(frame) {
            group(rt, g)?;
            trailer(rt, frame, after.at, g.trailer)?;
            c = after;
        }
    }
    println!(rt; "")
}

// The bytes of a frame from a place on.
fn ending(rt: &impl Print, frame: &[u8], at: usize) -> io::Result<()> {
    if at <= frame.len() {
        print!(rt; " padding")?;
        show::bytes(rt, &frame[at..])?;
    }
    println!(rt; "")
}

// A frame that was packed into the first n bytes of out: what is there from the place at on, and what is read from it.
fn packed(rt: &impl Print, name: &str, out: &[u8], n: usize, at: usize) -> io::Result<()> {
    if n <= out.len() {
        ending(rt, &out[0..n], at)?;
        read(rt, name, &out[0..n])?;
    }
    Ok(())
}

// The frame that a request packs to: its length and its last bytes, from the place at on.
fn pack(rt: &impl Print, name: &str, request: Request, at: usize) -> io::Result<()> {
    let mut out = [0xEEu8; 64];
    print!(rt; "{name}")?;
    match request.pack(&mut out) {
        Ok(n) => {
            print!(rt; " length {n}")?;
            packed(rt, name, &out, n, at)
        }
        Err(r) => {
            show::refused(rt, r)?;
            println!(rt; "")
        }
    }
}

// Figure 17 is a group with a trailer of 4 bytes, Figure 18 a plain one.
pub fn headers(rt: &impl Print) -> io::Result<()> {
    let figure17 = [
        0x28u8, 0x64, 0x00, 0x0C, 0x67, 0x20, 0x79, 0xE0, 0xFF, 0xFF, 0xFF, 0xFF, 0xAF, 0x03, 0x87,
        0xEF,
    ];
    read(rt, "figure 17", &figure17)?;
    let figure18 = [
        0x40u8, 0xF0, 0x17, 0x08, 0x67, 0x20, 0x79, 0xE0, 0xFA, 0xEF, 0x00, 0xFF,
    ];
    read(rt, "figure 18", &figure18)
}

// Figure 23: 44 bytes of groups in a frame of 48.
pub fn padding(rt: &impl Print) -> io::Result<()> {
    let data = [0x5Au8; 40];
    pack(
        rt,
        "figure 23",
        Request {
            services: &[2u8],
            formats: &[0u8],
            pgns: &[65226u32],
            lengths: &[40u8],
            trailers: &[0u8],
            data: &data,
            assured: b"",
        },
        44,
    )
}

// Figures 26 and 27 by their lengths: one group of each has a trailer, of 4 bytes after 20 of data, and of 8 after 3.
pub fn examples(rt: &impl Print) -> io::Result<()> {
    figure_26(rt)?;
    figure_27(rt)
}

fn figure_26(rt: &impl Print) -> io::Result<()> {
    let data = [0x11u8; 41];
    pack(
        rt,
        "figure 26",
        Request {
            services: &[2u8, 1, 2, 2],
            formats: &[0u8, 1, 0, 0],
            pgns: &[59904u32, 65200, 64210, 65226],
            lengths: &[3u8, 20, 8, 10],
            trailers: &[0u8, 4, 0, 0],
            data: &data,
            assured: &[0x33u8, 0x33, 0x33, 0x33],
        },
        61,
    )
}

fn figure_27(rt: &impl Print) -> io::Result<()> {
    let data = [0x22u8; 12];
    let assured = [0x44u8; 8];
    pack(
        rt,
        "figure 27",
        Request {
            services: &[2u8, 1, 2, 2],
            formats: &[0u8, 5, 0, 0],
            pgns: &[59904u32, 59904, 59904, 59904],
            lengths: &[3u8, 3, 3, 3],
            trailers: &[0u8, 8, 0, 0],
            data: &data,
            assured: &assured,
        },
        36,
    )
}
