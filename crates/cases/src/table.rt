// Entries of the three-feed table, and its gates as parts of a PMN file.
use crate::cuts::bits;
use crate::files::opened;
use crate::lent::up_to;
use crate::output::{byte, count, numbers, signed, text};
use std::io;
use three_feeds::TableEntry;
use three_feeds_part::MaskPart;

// Two settings that are 1, and two that are 0.
fn settings(rt: &impl Print, one: u8, other_one: u8, zero: u8, other_zero: u8) -> io::Result<()> {
    text(rt, b" no gate")?;
    byte(rt, one)?;
    byte(rt, other_one)?;
    byte(rt, zero)?;
    byte(rt, other_zero)
}

// The entry of a truth table.
fn entry(rt: &impl Print, entry: TableEntry) -> io::Result<()> {
    match entry {
        TableEntry::HasGate {
            weight_0,
            weight_1,
            weight_2,
            threshold,
        } => {
            text(rt, b" gate")?;
            signed(rt, weight_0)?;
            signed(rt, weight_1)?;
            signed(rt, weight_2)?;
            signed(rt, threshold)
        }
        TableEntry::NoGate {
            one,
            other_one,
            zero,
            other_zero,
        } => settings(rt, one, other_one, zero, other_zero),
    }
}

// What a part's call answered.
fn answered(rt: &impl Print, part: MaskPart) -> io::Result<()> {
    match part {
        MaskPart::Put(length) => {
            text(rt, b" put")?;
            count(rt, length)
        }
        MaskPart::NoGate {
            one,
            other_one,
            zero,
            other_zero,
        } => settings(rt, one, other_one, zero, other_zero),
        MaskPart::Refused(code) => {
            text(rt, b" refused")?;
            byte(rt, code)
        }
    }
}

// A part in so many of the lent bytes: the answer, and 22 of them.
fn put(
    rt: &impl Print,
    table: u8,
    i: u8,
    j: u8,
    k: u8,
    out: &mut [u8],
    room: usize,
) -> io::Result<()> {
    let end = up_to(room, out);
    answered(rt, front::table_part(table, i, j, k, &mut out[..end]))?;
    numbers(rt, out, 22)
}

// The gate of a truth table and an output after it put into a file whose header stands. The answer is the file's length, 0 where there is no gate.
fn fill(table: u8, file: &mut [u8]) -> usize {
    if file.len() != 29 {
        return 0;
    }
    let part = front::table_part(table, 0, 1, 2, &mut file[8..28]);
    let MaskPart::Put(length) = part else {
        return 0;
    };
    if 20 < length {
        return 0;
    }
    let end = 8 + length;
    file[end] = 3;
    9 + length
}

// The first bytes of a file read: the code, and the bit on each of the eight frames.
fn read_prefix(rt: &impl Print, file: &[u8], length: usize) -> io::Result<()> {
    let opened = opened(file, length);
    byte(rt, opened.code)?;
    bits(rt, opened.held, 0, 1)
}

// A file of three inputs, one gate and one output, with the gate of a truth table in it, read back: the truth table, the code, and the bits,
// which are the truth table's. Nothing where there is no gate.
fn read_back(rt: &impl Print, table: u8) -> io::Result<()> {
    let mut file = [0u8; 29];
    file[0] = 80;
    file[1] = 77;
    file[2] = 78;
    file[3] = 1;
    file[5] = 3;
    file[6] = 1;
    file[7] = 1;
    let length = fill(table, &mut file);
    if 0 < length {
        byte(rt, table)?;
        read_prefix(rt, &file, length)?;
    }
    Ok(())
}

// Every gate of the table.
fn read_all_back(rt: &impl Print) -> io::Result<()> {
    for table in 0..=u8::MAX {
        read_back(rt, table)?;
    }
    Ok(())
}

// The lowest byte of a number.
fn narrow(n: usize) -> u8 {
    (n % 256) as u8
}

// A case: 'entry', 'put', or 'all'.
pub(crate) fn case(rt: &impl Print, letter: u8, n: [usize; 8], out: &mut [u8]) -> io::Result<()> {
    match letter {
        b'e' => entry(rt, front::table_entry(narrow(n[0]))),
        b'p' => put(
            rt,
            narrow(n[0]),
            narrow(n[1]),
            narrow(n[2]),
            narrow(n[3]),
            out,
            n[4],
        ),
        _ => read_all_back(rt),
    }
}
