// One call of a list on a sound record.
ghost use Rattle.std.specs.Prelude.{◌≡◌};
ghost use Rattle.journal.specs.Answers.{applied};
ghost use Rattle.journal.specs.Parts.{left_by, SoundHeld};

use call_collapse::unchecked::collapse_in;
use call_preview::unchecked::preview_in;
use call_single::unchecked::{drop_in, merge_in};
use call_sweep::unchecked::sweep_in;
use call_theory::{Call, Figures};
use call_undo::unchecked::undo_in;
use journal::Record;
use refusals::Refusal;

// One call of a list: its three numbers, or the refusal.
pub fn apply_in(held: &mut Record, call: Call) -> Result<Figures, Refusal>
    requires { SoundHeld held.old }
    ensures { left_by result held.new ≡ applied held.old call }
{
    match call {
        Call::Merge { u, v, k, l } => merge_in(held, u, v, k, l),
        Call::Drop { s } => drop_in(held, s),
        Call::Collapse { s } => collapse_in(held, s),
        Call::Sweep { b } => sweep_in(held, b),
        Call::Preview { s } => preview_in(&held.network, s),
        Call::Undo => undo_in(held),
    }
}
