// Lanes and totals of an alley.
use crate::lent::{show, up_to};
use crate::output::{byte, count, number};
use alley_theory::Totals;
use std::io;

// Totals: the number of lanes and both sums.
fn show_totals(rt: &impl Print, totals: Totals) -> io::Result<()> {
    count(rt, totals.lanes)?;
    number(rt, totals.gates)?;
    number(rt, totals.cost)
}

// The first bytes of a lane, after totals, listed in so many of the lent bytes: the answer, and what it left.
fn listed(
    rt: &impl Print,
    lane: &[u8],
    length: usize,
    last: bool,
    totals: Totals,
    out: &mut [u8],
    room: usize,
) -> io::Result<()> {
    let stop = up_to(length, lane);
    let end = up_to(room, out);
    let listed = front::list_lane(&lane[..stop], last, totals, &mut out[..end]);
    let entry = listed.entry;
    byte(rt, listed.code)?;
    count(rt, listed.taken)?;
    count(rt, listed.length)?;
    byte(rt, entry.code)?;
    number(rt, entry.gates)?;
    number(rt, entry.cost)?;
    show_totals(rt, listed.totals)?;
    show(rt, out, room, listed.length)
}

// The total's line in so many of the lent bytes.
fn total(rt: &impl Print, totals: Totals, out: &mut [u8], room: usize) -> io::Result<()> {
    let end = up_to(room, out);
    let line = front::total_line(totals, &mut out[..end]);
    byte(rt, line.code)?;
    count(rt, line.length)?;
    show(rt, out, room, line.length)
}

// Totals of numbers.
fn totals_of(n: [usize; 8]) -> Totals {
    Totals {
        lanes: n[0],
        gates: n[1] as u64,
        cost: n[2] as u64,
    }
}

// A case: 'none', the totals before the first lane; 'total', or 'lane', with totals and the room; for a lane also with how many of its bytes are
// lent, and 1 where no bytes follow.
pub(crate) fn case(
    rt: &impl Print,
    letter: u8,
    n: [usize; 8],
    lane: &[u8],
    out: &mut [u8],
) -> io::Result<()> {
    match letter {
        b'n' => show_totals(rt, front::no_lanes()),
        b't' => total(rt, totals_of(n), out, n[3]),
        _ => listed(rt, lane, n[4], n[5] == 1, totals_of(n), out, n[3]),
    }
}
