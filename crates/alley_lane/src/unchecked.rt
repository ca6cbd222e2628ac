// The first lane of bytes, and its entry by the read and the report. A lane's entry is for a caller that found the lane.
ghost use Rattle.std.specs.Prelude.{◌≡◌};
ghost use Rattle.basics.specs.Refusals.{refused};
ghost use Rattle.alley_theory.specs.Alley.{whole};
ghost use Rattle.alley_theory.specs.Answers.{as_entry};
ghost use Rattle.alley_theory.specs.Writes.{EntryFor, lane_in, cut_off, FoundInside, FoundIn};

use alley_theory::{Entry, Found};
use pmn_header::unchecked::read_head;

// What is found where the bytes end before the lane does: where they are the last, a lane that takes them all and is cut short.
fn cut_off(available: usize, last: bool) -> Found
    ensures { result ≡ cut_off last available }
{
    Found {
        taken: if last { available } else { 0 },
        complete: false,
    }
}

// The first lane, where `last` says that nothing follows the bytes.
pub fn find_lane(bytes: &[u8], last: bool) -> Found
    ensures { FoundIn last bytes.now result }
{
    let available = bytes.len();
    if available < 2 {
        return cut_off(available, last);
    }
    let length = usize::from(bytes[0]) + 256 * usize::from(bytes[1]);
    if available - 2 < length {
        return cut_off(available, last);
    }
    Found {
        taken: 2 + length,
        complete: true,
    }
}

// The entry of a refused lane.
fn refused_entry(code: u8) -> Entry
    ensures { result ≡ as_entry (refused code) }
{
    Entry {
        code,
        gates: 0,
        cost: 0,
    }
}

// The entry of a whole lane, by its file.
fn file_entry(file: &[u8]) -> Entry
    ensures { EntryFor (whole file.now) result }
{
    let loaded = pmn_reader::read(file);
    let code = pmn_opening::unchecked::refusal(file, loaded, 0, 0);
    if code != 0 {
        return refused_entry(code);
    }
    let size = network_report::unchecked::size_of(&loaded.network);
    Entry {
        code: 0,
        gates: size.gates as u64,
        cost: size.cost,
    }
}

// The same. A lane that is refused in its header needs no record.
fn whole_entry(file: &[u8]) -> Entry
    ensures { EntryFor (whole file.now) result }
{
    match read_head(file) {
        Ok(_) => file_entry(file),
        Err(refusal) => refused_entry(refusal.number()),
    }
}

// The entry of a lane that was found; 4 where it is cut short.
pub fn lane_entry(bytes: &[u8], found: Found) -> Entry
    requires { FoundInside bytes.now found }
    ensures { EntryFor (lane_in bytes.now found) result }
{
    if found.complete {
        whole_entry(&bytes[2..found.taken])
    } else {
        refused_entry(4)
    }
}
