// Files and frames.
use crate::lent::{put, up_to, words_up_to};
use crate::output::{byte, count, number, numbers};
use crate::show;
use front::Opened;
use journal::Record;
use pmn_writer::Written;
use std::io;

// The record's file put into the first of the lent bytes.
fn put_file(held: Record, out: &mut [u8], room: usize) -> Written {
    let end = up_to(room, out);
    front::write(held, &mut out[..end])
}

// The record's file as a lane of an alley: its length in two bytes, and the file.
pub(crate) fn put_lane(held: Record, lane: &mut [u8]) {
    if lane.len() < 2 {
        return;
    }
    let room = lane.len();
    let written = put_file(held, &mut lane[2..], room);
    put(lane, 0, written.length);
    put(lane, 1, written.length / 256);
}

// The file written: the answer, and 54 of the lent bytes.
fn written(rt: &impl Print, held: Record, out: &mut [u8], room: usize) -> io::Result<()> {
    let written = put_file(held, out, room);
    byte(rt, written.code)?;
    count(rt, written.length)?;
    numbers(rt, out, 54)
}

// A file converted in the same way.
fn converted(rt: &impl Print, file: &[u8], out: &mut [u8], room: usize) -> io::Result<()> {
    let end = up_to(room, out);
    let converted = front::convert(file, &mut out[..end]);
    byte(rt, converted.code)?;
    count(rt, converted.length)?;
    numbers(rt, out, 54)
}

// The first bytes of a file read.
pub(crate) fn opened(file: &[u8], length: usize) -> Opened {
    let end = up_to(length, file);
    front::read(&file[..end])
}

// Reads of the first bytes of a file, from so many on to all: of each the code, and where it is 0 the network.
fn reads(rt: &impl Print, file: &[u8], from: usize) -> io::Result<()> {
    for n in from..=file.len() {
        let opened = opened(file, n);
        byte(rt, opened.code)?;
        if opened.code == 0 {
            show::network(rt, opened.held)?;
        }
    }
    Ok(())
}

// The bytes of the gate with a signal.
fn part(rt: &impl Print, file: &[u8], signal: usize) -> io::Result<()> {
    let bytes = front::gate_part(file, signal);
    byte(rt, front::gate_part_code(file, signal))?;
    count(rt, bytes.len())?;
    numbers(rt, bytes, bytes.len())
}

// A call on a file: 'read', 'part' or 'convert'.
fn on_file(
    rt: &impl Print,
    letter: u8,
    file: &[u8],
    first: usize,
    out: &mut [u8],
) -> io::Result<()> {
    match letter {
        b'r' => reads(rt, file, first),
        b'p' => part(rt, file, first),
        _ => converted(rt, file, out, first),
    }
}

// The same on the first bytes of a file, of which up to two are changed: the second number says how many bytes. The third and the fourth are a
// place and the byte that is put there, and so are the fifth and the sixth.
fn on_changed(
    rt: &impl Print,
    letter: u8,
    n: [usize; 8],
    file: &mut [u8],
    out: &mut [u8],
) -> io::Result<()> {
    put(file, n[2], n[3]);
    put(file, n[4], n[5]);
    let end = up_to(n[1], file);
    on_file(rt, letter, &file[..end], n[0], out)
}

// The same on the file of a lane.
fn on_lane(
    rt: &impl Print,
    letter: u8,
    n: [usize; 8],
    lane: &mut [u8],
    out: &mut [u8],
) -> io::Result<()> {
    if 2 <= lane.len() {
        on_changed(rt, letter, n, &mut lane[2..], out)?;
    }
    Ok(())
}

// A frame.
fn frame(rt: &impl Print, held: Record, frame: u64) -> io::Result<()> {
    let reading = front::read_frame(held, frame);
    byte(rt, reading.code)?;
    number(rt, reading.bits)?;
    number(rt, reading.ones as u64)
}

// The frames 0 to 7 over and over, but 8 at one place.
fn frames_but(long: usize) -> [u64; 65] {
    let mut list = [0u64; 65];
    for i in 0..65 {
        list[i] = if i == long { 8 } else { i as u64 % 8 };
    }
    list
}

// The first frames of a list read in one pass into the first of the lent places: the code.
fn read_first(
    rt: &impl Print,
    held: Record,
    frames: &[u64],
    count: usize,
    answers: &mut [u64],
    room: usize,
) -> io::Result<()> {
    let end = words_up_to(count, frames);
    let last = words_up_to(room, answers);
    byte(
        rt,
        front::read_frames(held, &frames[..end], &mut answers[..last]),
    )
}

// All numbers of a list.
fn words(rt: &impl Print, list: &[u64]) -> io::Result<()> {
    for n in list {
        number(rt, *n)?;
    }
    Ok(())
}

// All 66 places of a list.
fn words_66(rt: &impl Print, list: &[u64; 66]) -> io::Result<()> {
    words(rt, list)
}

// So many frames, of which one is 8, read into the first places of 66, each of which was 170: the code, and all 66 places.
fn several(
    rt: &impl Print,
    held: Record,
    count: usize,
    room: usize,
    long: usize,
) -> io::Result<()> {
    let frames = frames_but(long);
    let mut answers = [170u64; 66];
    read_first(rt, held, &frames, count, &mut answers, room)?;
    words_66(rt, &answers)
}

// A case: 'write', 'frame', 'several', or a call on the record's file.
pub(crate) fn case(
    rt: &impl Print,
    letter: u8,
    held: Record,
    n: [usize; 8],
    lane: &mut [u8],
    out: &mut [u8],
) -> io::Result<()> {
    match letter {
        b'w' => written(rt, held, out, n[0]),
        b'f' => frame(rt, held, n[0] as u64),
        b's' => several(rt, held, n[0], n[1], n[2]),
        _ => on_lane(rt, letter, n, lane, out),
    }
}
