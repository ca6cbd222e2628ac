// Collapse on a sound record, with the single steps of an accepted call entered into the journal.
ghost use Rattle.std.specs.Prelude.{◌≡◌};
ghost use Rattle.fold_reader_pairs.specs.Collapsing.{CollapsesBy};
ghost use Rattle.call_theory.specs.declared.Call.TheVariants.{Collapse};
ghost use Rattle.journal.specs.Answers.{applied};
ghost use Rattle.journal.specs.Parts.{left_by, SoundHeld};
ghost use Rattle.call_collapse.specs.Entering.{CollapseEntered};

use call_steps::unchecked::enter_collapse;
use call_theory::Figures;
use fold_collapse::unchecked::collapse_by_pairs;
use fold_reader_pairs::Pairs;
use fold_reader_pairs::unchecked::collapse_pairs;
use journal::Record;
use journal::unchecked::collapses_made;
use refusals::Refusal;

// Gate u collapsed into its readers by their pairs, with its steps entered: the merges into the readers, in rising order, then the drop.
pub fn collapse_entered(held: &mut Record, u: usize, pairs: &Pairs)
    requires { CollapsesBy held.old.network u pairs.now }
    ensures { CollapseEntered held.old u pairs.now held.new }
{
    enter_collapse(&held.network, &mut held.journal, u);
    collapse_by_pairs(&mut held.network, u, pairs);
}

// Gate s collapsed into all of its readers, with its steps entered. Refusals: 11 no such gate, 17 still read (an output), then the first reader's
// 7 or 16.
pub fn collapse_in(held: &mut Record, s: usize) -> Result<Figures, Refusal>
    requires { SoundHeld held.old }
    ensures { left_by result held.new ≡ applied held.old (Collapse s) }
{
    let pairs = collapse_pairs(&held.network, s)?;
    collapse_entered(held, s, &pairs);
    Ok(collapses_made(0))
}
