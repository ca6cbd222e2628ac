// An alley file from a reader, its sheet to a writer. The lanes are listed by the calls of `alley_sheet` as they come in; this module
// only moves bytes. It holds 131,072 bytes of the file at a time, which is more than the longest lane has, and writes its lines in blocks.
// A read or a write that fails ends the work with its error.
ghost use Rattle.alley.specs.Moves.{MovedToFront};

use alley_theory::{Listed, Totals};
use std::io::{Read, Result, Write};

// Where the work stands: the totals so far, the bytes of the input from `from` to `end` that are not listed yet, whether the file's last
// byte is among them, and the first `used` bytes of the output that are not written yet.
#[derive(Clone, Copy)]
struct Place {
    totals: Totals,
    from: usize,
    end: usize,
    is_last: bool,
    used: usize,
}

// ---- output

// Writes the first bytes of the output.
fn write_first<W: Write>(writer: &mut W, output: &[u8], used: usize) -> Result<()> {
    writer.write_all(&output[..used.min(output.len())])
}

// Writes the output where a line might not fit after it. No line has more than 48 bytes.
fn make_room<W: Write>(writer: &mut W, output: &[u8], place: &mut Place) -> Result<()> {
    if output.len().saturating_sub(place.used) < 48 {
        write_first(writer, output, place.used)?;
        place.used = 0;
    }
    Ok(())
}

// ---- input

// Reads from a place on until the bytes are full or the file ends. The answer is where the file's bytes end.
fn fill<R: Read>(reader: &mut R, input: &mut [u8], start: usize) -> Result<usize> {
    let mut end = start.min(input.len());
    // Kept: a read may bring fewer bytes than there is room for, so `end` is no index that a `for` counts.
    while end < input.len() {
        let got = reader.read(&mut input[end..])?;
        if got == 0 {
            break;
        }
        end += got;
    }
    Ok(end)
}

// Moves the bytes from one place to another to the front. The answer is their number.
fn move_to_front(bytes: &mut [u8], start: usize, stop: usize) -> usize
    ensures { MovedToFront start stop bytes.old bytes.new result }
{
    let end = stop.min(bytes.len());
    let from = start.min(end);
    bytes.copy_within(from..end, 0);
    end - from
}

// More of the file, after what is not listed yet.
fn refill<R: Read>(reader: &mut R, input: &mut [u8], place: &mut Place) -> Result<()> {
    let kept = move_to_front(input, place.from, place.end);
    place.from = 0;
    place.end = fill(reader, input, kept)?;
    place.is_last = place.end < input.len();
    Ok(())
}

// ---- lanes

// The first lane of the bytes at hand.
fn list(input: &[u8], output: &mut [u8], place: &Place) -> Listed {
    let end = place.end.min(input.len());
    let from = place.from.min(end);
    let used = place.used.min(output.len());
    alley_sheet::list_lane(
        &input[from..end],
        place.is_last,
        place.totals,
        &mut output[used..],
    )
}

// Lists a lane, or where the bytes at hand hold none reads more. The answer is whether a lane may be left: not where none is listed and the
// file's last byte is at hand, or all lanes that are listed have been.
fn turn<R: Read, W: Write>(
    reader: &mut R,
    writer: &mut W,
    input: &mut [u8],
    output: &mut [u8],
    place: &mut Place,
) -> Result<bool> {
    make_room(writer, output, place)?;
    let listed = list(input, output, place);
    if listed.taken != 0 {
        place.totals = listed.totals;
        place.from = place.from.saturating_add(listed.taken).min(place.end);
        place.used = place.used.saturating_add(listed.length).min(output.len());
        return Ok(true);
    }
    if place.is_last || 65535 <= place.totals.lanes {
        return Ok(false);
    }
    refill(reader, input, place)?;
    Ok(true)
}

// The total's line after the others.
fn finish<W: Write>(writer: &mut W, output: &mut [u8], place: &mut Place) -> Result<()> {
    make_room(writer, output, place)?;
    let used = place.used.min(output.len());
    let line = alley_sheet::total_line(place.totals, &mut output[used..]);
    write_first(writer, output, used.saturating_add(line.length))
}

// From the reader to the writer: every lane, and the total. At most 65,535 lanes are listed, with at most one reading before each, and two turns
// more find the end.
pub(crate) fn run<R: Read, W: Write>(reader: &mut R, writer: &mut W) -> Result<()> {
    let mut input = [0u8; 131072];
    let mut output = [0u8; 65536];
    let mut place = Place {
        totals: alley_sheet::no_lanes(),
        from: 0,
        end: 0,
        is_last: false,
        used: 0,
    };
    for _ in 0..131072 {
        if !turn(reader, writer, &mut input, &mut output, &mut place)? {
            break;
        }
    }
    finish(writer, &mut output, &mut place)
}
