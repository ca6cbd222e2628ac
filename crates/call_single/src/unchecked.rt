// Merge and drop on a sound record, with the single step of an accepted call entered into the journal.
ghost use Rattle.std.specs.Prelude.{◌≡◌};
ghost use Rattle.call_theory.specs.declared.Call.TheVariants.{Merge, Drop};
ghost use Rattle.journal.specs.Answers.{applied};
ghost use Rattle.journal.specs.Parts.{left_by, SoundHeld};

use call_theory::Figures;
use fold_drop::unchecked::test_drop;
use fold_merge::unchecked::merges::merged_at;
use journal::unchecked::collapses_made;
use journal::{Record, StepKind};
use journal_gate::unchecked::enter_gate;
use network_places::unchecked::store_gate;
use network_removal::unchecked::remove_gate;
use refusals::Refusal;

// u merged into v with k and l, with its step entered. Refusals: 11 no such gate, 12 not a feed, 14 off the dial, 7 too wide, 6 off the scale,
// 24 broken margin, 15 disagrees. It has a frame of its own.
#[inline(never)]
pub fn merge_in(
    held: &mut Record,
    u: usize,
    v: usize,
    k: usize,
    l: usize,
) -> Result<Figures, Refusal>
    requires { SoundHeld held.old }
    ensures { left_by result held.new ≡ applied held.old (Merge u v k l) }
{
    let gate = merged_at(&held.network, u, v, k, l)?;
    let g = v - held.network.inputs;
    enter_gate(
        &held.network,
        &mut held.journal,
        StepKind::Merge as u8,
        v as u8,
        g,
    );
    store_gate(&mut held.network, g, gate);
    Ok(collapses_made(0))
}

// The gate with signal s removed, which no gate and no output reads. Refusals: 11 no such gate, 17 still read.
pub fn drop_in(held: &mut Record, s: usize) -> Result<Figures, Refusal>
    requires { SoundHeld held.old }
    ensures { left_by result held.new ≡ applied held.old (Drop s) }
{
    test_drop(&held.network, s)?;
    let g = s - held.network.inputs;
    enter_gate(
        &held.network,
        &mut held.journal,
        StepKind::Drop as u8,
        s as u8,
        g,
    );
    remove_gate(&mut held.network, s);
    Ok(collapses_made(0))
}
