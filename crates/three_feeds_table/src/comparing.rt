// The library's table against the search.
ghost use Rattle.std.specs.Prelude.{◌<◌};

use crate::search::{cheapest_gate, raised_threshold, raised_weight, setting, witness};
use three_feeds::TableEntry;

// Whether a number is another less a third.
fn is_difference(z: i32, a: usize, b: u8) -> bool
    requires { a < 100 }
{
    i64::from(z) + i64::from(b) == a as i64
}

// Whether the entry of the library for a truth table is the one that the search finds.
pub(crate) fn is_found(table: u8) -> bool {
    match (three_feeds::entry(table), cheapest_gate(usize::from(table))) {
        (
            TableEntry::HasGate {
                weight_0,
                weight_1,
                weight_2,
                threshold,
            },
            Some(gate),
        ) => {
            is_difference(weight_0, raised_weight(gate, 0), 2)
                && is_difference(weight_1, raised_weight(gate, 1), 2)
                && is_difference(weight_2, raised_weight(gate, 2), 2)
                && is_difference(threshold, raised_threshold(gate), 4)
        }
        (
            TableEntry::NoGate {
                one,
                other_one,
                zero,
                other_zero,
            },
            None,
        ) => {
            let settings = witness(usize::from(table));
            usize::from(one) == setting(settings, 0)
                && usize::from(other_one) == setting(settings, 1)
                && usize::from(zero) == setting(settings, 2)
                && usize::from(other_zero) == setting(settings, 3)
        }
        _ => false,
    }
}
