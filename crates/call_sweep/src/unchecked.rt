// Sweep on a sound record, with the single steps of its collapses entered into the journal.
ghost use Rattle.std.specs.Prelude.{◌≡◌};
ghost use Rattle.call_theory.specs.declared.Call.TheVariants.{Sweep};
ghost use Rattle.journal.specs.Answers.{applied};
ghost use Rattle.journal.specs.Parts.{left_by, SoundHeld};

use call_collapse::unchecked::collapse_entered;
use call_theory::Figures;
use fold_memory::Memory;
use fold_sweep::unchecked::lowest_collapsible;
use journal::Record;
use journal::unchecked::collapses_made;
use refusals::Refusal;

// The lowest gate with at most b readers that collapse accepts collapsed, again and again, until there is none. Refusals: 14 off the dial.
pub fn sweep_in(held: &mut Record, b: usize) -> Result<Figures, Refusal>
    requires { SoundHeld held.old }
    ensures { left_by result held.new ≡ applied held.old (Sweep b) }
{
    if 128 < b {
        return Err(Refusal::OffTheDial);
    }
    let mut memory = Memory {
        hints: [0; 128],
        refusers: [128; 128],
    };
    let gates = held.network.gates;
    for collapses in 0..gates {
        match lowest_collapsible(&held.network, b, &mut memory) {
            Some(choice) => collapse_entered(held, choice.u, &choice.pairs),
            None => return Ok(collapses_made(collapses)),
        }
    }
    Ok(collapses_made(gates))
}
