// The three-feed table: for each truth table of three feeds a gate with that function, or settings that show that no gate has it.
// Document 02, No. 7.
#![tactic(auto)]

ghost use Rattle.std.specs.Prelude.{◌≡◌, false, map, ◌+◌, ◌*◌, ◌<◌, pos, get_or};
ghost use Rattle.three_feeds.specs.Rule.{EntryRule, has_gate};
ghost use Rattle.three_feeds.specs.Numbers.{numbers_of_all};
ghost use Rattle.three_feeds.specs.Table.{table_entries, table_entry};
ghost use Rattle.three_feeds.specs.Claims.{EveryEntry, Exactly104, EveryGate};

use table::{HAS_GATE, NUMBERS};

// What the table holds for a truth table: a gate with that function, of which a weight 0 leaves its feed out; or two settings that are 1
// and two that are 0, whose feed-by-feed sums are equal.
#[derive(Clone, Copy)]
pub enum TableEntry {
    HasGate {
        weight_0: i32,
        weight_1: i32,
        weight_2: i32,
        threshold: i32,
    },
    NoGate {
        one: u8,
        other_one: u8,
        zero: u8,
        other_zero: u8,
    },
}

// Whether the entry of a truth table has a gate.
fn has_gate(table: u8) -> bool
    ensures { result ≡ get_or (map has_gate table_entries) table false }
{
    HAS_GATE[usize::from(table)]
}

// Number `place` of the four of an entry. The table's numbers are lent, since each look at a constant array would copy all of it.
fn number(numbers: &[i8; 1024], table: u8, place: usize) -> i32
    requires { (numbers.now ≡ numbers_of_all table_entries) × (place < 4) }
    ensures { result ≡ get_or (numbers_of_all table_entries) (4 * table + place) (pos 0) }
{
    i32::from(numbers[4 * usize::from(table) + place])
}

// The entry of a truth table: bit s is the value on setting s, and bit i of s is feed i.
pub fn entry(table: u8) -> TableEntry
    ensures value { result ≡ table_entry table }
    ensures entry_rule { EntryRule table result }
{
    let numbers = NUMBERS;
    let first = number(&numbers, table, 0);
    let second = number(&numbers, table, 1);
    let third = number(&numbers, table, 2);
    let fourth = number(&numbers, table, 3);
    if has_gate(table) {
        return TableEntry::HasGate {
            weight_0: first,
            weight_1: second,
            weight_2: third,
            threshold: fourth,
        };
    }
    TableEntry::NoGate {
        one: first as u8,
        other_one: second as u8,
        zero: third as u8,
        other_zero: fourth as u8,
    }
}

// Every entry is right.
pub fn every_entry_is_right()
    ensures { EveryEntry }
{}

// Exactly 104 of the 256 have a gate, and for no other truth table is there a gate of any weights.
pub fn exactly_104_have_a_gate()
    ensures { Exactly104 }
{}

// A gate of the table serves any three signals.
pub fn gates_serve_any_signals()
    ensures { EveryGate }
{}

mod table;
