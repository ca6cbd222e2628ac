// The totals, and a lane's line with the totals after it, each for a caller that has tested what it asks for.
ghost use Rattle.std.specs.Prelude.{◌≡◌, length};
ghost use Rattle.basics.specs.Refusals.{stored, refused};
ghost use Rattle.alley_theory.specs.Answers.{sound_totals, with_entry, listed, room_tested, as_listed, text_of};
ghost use Rattle.alley_theory.specs.Writes.{entry_in, Listable, TotalsOpen};

use alley_line::unchecked::put_lane;
use alley_theory::{Entry, Listed, Totals};
use texts::unchecked::put_bytes;

// Totals that an alley can have.
pub fn is_sound(totals: Totals) -> bool
    ensures { result ≡ sound_totals totals }
{
    let lanes = totals.lanes;
    if 65535 < lanes {
        return false;
    }
    let most = lanes as u64;
    (totals.gates <= 128 * most) & (totals.cost <= 2176000000 * most)
}

// The totals with one lane more. A refused lane counts as nothing in both sums.
fn with_entry(totals: Totals, entry: Entry) -> Totals
    requires totals_open { TotalsOpen totals }
    requires listable { Listable entry }
    ensures { result ≡ with_entry totals (entry_in entry) }
{
    let lanes = totals.lanes + 1;
    if entry.code != 0 {
        return Totals { lanes, ..totals };
    }
    Totals {
        lanes,
        gates: totals.gates + entry.gates,
        cost: totals.cost + entry.cost,
    }
}

// The answer where no lane is listed.
pub fn none_listed(code: u8, totals: Totals) -> Listed
    ensures { result ≡ as_listed totals (refused code) }
{
    Listed {
        code,
        taken: 0,
        length: 0,
        entry: Entry {
            code: 0,
            gates: 0,
            cost: 0,
        },
        totals,
    }
}

// The line of a lane that takes so many bytes, and the totals after it; 18 where the line is longer than the lent bytes.
pub fn write_lane(taken: usize, entry: Entry, totals: Totals, out: &mut [u8]) -> Listed
    requires totals_open { TotalsOpen totals }
    requires listable { Listable entry }
    ensures value { result ≡ as_listed totals (room_tested (length out.old) (listed totals taken (entry_in entry))) }
    ensures out_after { out.new ≡ stored (text_of (room_tested (length out.old) (listed totals taken (entry_in entry)))) out.old }
{
    let mut text = [0u8; 21];
    let length = put_lane(&mut text, totals.lanes + 1, entry);
    if out.len() < length {
        return none_listed(18, totals);
    }
    put_bytes(out, &text[..length]);
    let after = with_entry(totals, entry);
    Listed {
        code: 0,
        taken,
        length,
        entry,
        totals: after,
    }
}
