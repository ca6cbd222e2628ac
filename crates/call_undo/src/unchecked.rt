// One step of a sound record taken back.
ghost use Rattle.std.specs.Prelude.{◌≡◌};
ghost use Rattle.call_theory.specs.declared.Call.TheVariants.{Undo};
ghost use Rattle.journal.specs.Answers.{applied};
ghost use Rattle.journal.specs.Parts.{left_by, SoundHeld};

use call_restoring::unchecked::take_back;
use call_theory::Figures;
use journal::Record;
use journal::unchecked::collapses_made;
use journal_newest::unchecked::remove_newest;
use refusals::Refusal;

// The latest step taken back. Refusals: 22 empty journal, 23 a step that would leave an unsound network. It has a frame of its own.
#[inline(never)]
pub fn undo_in(held: &mut Record) -> Result<Figures, Refusal>
    requires { SoundHeld held.old }
    ensures { left_by result held.new ≡ applied held.old Undo }
{
    if held.journal.count == 0 {
        return Err(Refusal::EmptyJournal);
    }
    if !take_back(&mut held.network, &held.journal) {
        return Err(Refusal::UnsoundStep);
    }
    remove_newest(&mut held.journal);
    Ok(collapses_made(0))
}
