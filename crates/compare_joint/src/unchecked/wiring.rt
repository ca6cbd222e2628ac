// What reads one signal reads another instead.
ghost use Rattle.std.specs.Prelude.{◌≡◌, map};
ghost use Rattle.compare_theory.specs.Wiring.{moved, moved_row};

// The signal that is read in the place of s where what reads q reads p instead.
#[tactic(auto, unfolding(compare_theory::specs::Wiring::moved))]
fn moved_signal(p: u16, q: u16, s: u16) -> u16
    ensures { result ≡ moved p q s }
{
    if s == q { p } else { s }
}

// A row of wires: its feed count stays.
fn move_row(row: &mut [u16; 17], p: u16, q: u16)
    ensures { row.new ≡ moved_row p q row.old }
{
    for i in 0..16 {
        row[1 + i] = moved_signal(p, q, row[1 + i]);
    }
}

// The rows of all gates.
pub fn rewire_rows(rows: &mut [[u16; 17]], p: u16, q: u16)
    ensures { rows.new ≡ map (moved_row p q) rows.old }
{
    for row in rows.iter_mut() {
        move_row(row, p, q);
    }
}

// The signals of outputs.
pub fn rewire_outputs(signals: &mut [u16], p: u16, q: u16)
    ensures { signals.new ≡ map (moved p q) signals.old }
{
    for signal in signals.iter_mut() {
        *signal = moved_signal(p, q, *signal);
    }
}
