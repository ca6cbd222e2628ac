// The lines of a sheet, put at the front of lent bytes, each for a caller that has tested the room.
ghost use Rattle.std.specs.Prelude.{[], ◌∷◌, ◌++◌, ◌+◌, ◌≤◌, length};
ghost use Rattle.texts.specs.Texts.{decimal};
ghost use Rattle.texts.specs.Writes.{TextPut};
ghost use Rattle.alley_theory.specs.Alley.{size_text, lane_text, total_text};
ghost use Rattle.alley_theory.specs.Writes.{entry_in, size_with, Listable};

use alley_theory::Entry;
use texts::unchecked::{put_decimal, put_number};

// A word, the decimal digits of a number and a line feed.
fn put_last(out: &mut [u8], word: &[u8], n: usize) -> usize
    requires { length word.now + length (decimal n) + 1 ≤ length out.old }
    ensures { TextPut ((word.now ++ decimal n) ++ (10 ∷ [])) result out.old out.new }
{
    let at = put_number(out, word, n);
    out[at] = b'\n';
    at + 1
}

// A word, gates, cost and a line feed.
fn put_size(out: &mut [u8], word: &[u8], gates: u64, cost: u64) -> usize
    requires { length word.now + length (size_text (size_with gates cost)) ≤ length out.old }
    ensures { TextPut (word.now ++ size_text (size_with gates cost)) result out.old out.new }
{
    let at = put_number(out, word, gates as usize);
    at + put_last(&mut out[at..], b" ", cost as usize)
}

// The total's line: at most 48 bytes.
pub fn put_total(out: &mut [u8], gates: u64, cost: u64) -> usize
    requires { 48 ≤ length out.old }
    ensures text_put { TextPut (total_text (size_with gates cost)) result out.old out.new }
    ensures upper_bound { result ≤ 48 }
{
    put_size(out, b"total ", gates, cost)
}

// A lane's line: at most 21 bytes.
pub fn put_lane(out: &mut [u8], position: usize, entry: Entry) -> usize
    requires position_bound { position ≤ 65535 }
    requires listable { Listable entry }
    requires in_bounds { 21 ≤ length out.old }
    ensures { TextPut (lane_text position (entry_in entry)) result out.old out.new }
{
    let at = put_decimal(out, position);
    if entry.code != 0 {
        return at + put_last(&mut out[at..], b" refused ", usize::from(entry.code));
    }
    at + put_size(&mut out[at..], b" ", entry.gates, entry.cost)
}
