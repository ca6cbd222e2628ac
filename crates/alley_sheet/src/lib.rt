// The sheet of an alley, lane by lane: a lane's line and the totals after it, and the last line with both sums.
#![tactic(auto)]

ghost use Rattle.std.specs.Prelude.{◌≡◌, List, ℕ, length};
ghost use Rattle.basics.specs.Refusals.{stored};
ghost use Rattle.pmn_format.specs.Format.{Bytes};
ghost use Rattle.alley_theory.specs.Claims.{FirstLanes, TotalOfRecords, TotalOfLines, LaneByLane};
ghost use Rattle.alley_theory.specs.Answers.{no_lanes, listing, as_listed, text_of, total_answer, as_sheet_line};

use alley_lane::unchecked::{find_lane, lane_entry};
use alley_line::unchecked::put_total;
use alley_theory::{LineWritten, Listed, Totals};
use alley_totals::unchecked::{is_sound, none_listed, write_lane};

// The totals before the first lane.
pub fn no_lanes() -> Totals
    ensures { result ≡ no_lanes }
{
    Totals {
        lanes: 0,
        gates: 0,
        cost: 0,
    }
}

// Lists the first lane of the bytes, which are an alley file's from a lane's start on; `last` says that nothing follows them. Its line goes
// to the front of the lent bytes. The answer has the bytes that the lane takes, what is listed of it and the totals after it; no bytes
// are taken where the bytes end before the lane does and are not the last, where none are left, and after 65,535 lanes. Refusals: 20 for
// totals that no alley has, 18 where the line is longer than the lent bytes.
pub fn list_lane(bytes: &[u8], last: bool, totals: Totals, out: &mut [u8]) -> Listed
    ensures value { result ≡ as_listed totals (listing totals last bytes.now (length out.old)) }
    ensures out_after { out.new ≡ stored (text_of (listing totals last bytes.now (length out.old))) out.old }
{
    if !is_sound(totals) {
        return none_listed(20, totals);
    }
    if 65535 <= totals.lanes {
        return none_listed(0, totals);
    }
    let found = find_lane(bytes, last);
    let taken = found.taken;
    if taken == 0 {
        return none_listed(0, totals);
    }
    let entry = lane_entry(bytes, found);
    write_lane(taken, entry, totals, out)
}

// Writes the last line, `total` and both sums, at the front of the lent bytes. Refusal: 18 where it is longer than the lent bytes.
pub fn total_line(totals: Totals, out: &mut [u8]) -> LineWritten
    ensures value { result ≡ as_sheet_line (total_answer totals (length out.old)) }
    ensures out_after { out.new ≡ stored (total_answer totals (length out.old)) out.old }
{
    let mut text = [0u8; 48];
    let length = put_total(&mut text, totals.gates, totals.cost);
    if out.len() < length {
        return LineWritten {
            code: 18,
            length: 0,
        };
    }
    texts::unchecked::put_bytes(out, &text[..length]);
    LineWritten { code: 0, length }
}

// The lanes of an alley of files are the first 65,535 of them, each by its length, the lower byte first; no alley has more.
pub fn at_most_65535_lanes()
    ensures { FirstLanes }
{}

// Every alley file's total is the sum over the records read, as the size report counts them.
pub fn total_of_records()
    ensures { (alley : List ℕ) → Bytes alley → TotalOfRecords alley }
{}

// Every alley file's sheet, read back strictly, says each lane's entry at its position, and a total that is the sum of what these lines say.
pub fn total_of_lines()
    ensures { (alley : List ℕ) → Bytes alley → TotalOfLines alley }
{}

// Calls of `list_lane` in a row, however the file comes in, and one of `total_line` print the sheet.
pub fn lane_by_lane()
    ensures { LaneByLane }
{}
