// An entry as numbers in lent places: 1, the three weights and T; or 0, the two settings that are 1 and the two that are 0.
#![tactic(auto)]

ghost use Rattle.std.specs.Prelude.{◌≡◌, [], ◌∷◌, ◌++◌, ◌≤◌, pos, length, drop};
ghost use Rattle.basics.specs.Refusals.{code_of, stored};
ghost use Rattle.three_feeds_places.specs.Places.{places_of, entry_places};

use three_feeds::{TableEntry, entry};

// The numbers of an entry.
fn numbers(found: TableEntry) -> [i64; 5]
    ensures { result ≡ places_of found }
{
    match found {
        TableEntry::HasGate {
            weight_0,
            weight_1,
            weight_2,
            threshold,
        } => [
            1,
            i64::from(weight_0),
            i64::from(weight_1),
            i64::from(weight_2),
            i64::from(threshold),
        ],
        TableEntry::NoGate {
            one,
            other_one,
            zero,
            other_zero,
        } => [
            0,
            i64::from(one),
            i64::from(other_one),
            i64::from(zero),
            i64::from(other_zero),
        ],
    }
}

// The entry of a truth table in the first five places. Codes in order: 18 where there are fewer, 14 where the number is above 255.
pub fn put_entry(table: u64, answer: &mut [i64]) -> u8
    ensures value { result ≡ code_of (entry_places table answer.old) }
    ensures answer_after { answer.new ≡ stored (entry_places table answer.old) answer.old }
{
    if answer.len() < 5 {
        return 18;
    }
    if 255 < table {
        return 14;
    }
    answer[..5].copy_from_slice(&numbers(entry(table as u8)));
    0
}
