// Decisions without recursion: a signal and a bit at each level, and for each byte the levels on which it rests.
ghost use Rattle.std.specs.Prelude.{◌≡◌, ◌/◌, ◌^◌, ◌<◌};
ghost use Rattle.compare_theory.specs.Decisions.{Reopened, Decision, JumpedBack};

use crate::Held;

// The decisions: the signal chosen at each level, and the bit tried.
#[derive(Drop)]
pub(crate) struct Decisions {
    pub chosen: [u16; 64],
    pub tried: [u8; 64],
}

// Opens what rests on a decision at the level or above.
fn reopen(held: &mut Held, level: usize)
    requires { level < 64 }
    ensures opened { Reopened level held.old.rests held.old.bits held.new.bits }
    ensures rests_same { held.new.rests ≡ held.old.rests }
{
    for k in 0..296 {
        if (held.rests[k] >> level) != 0 {
            held.bits[k] = 2;
        }
    }
}

impl Decisions {
    // The decision of a level: the signal gets the bit, which rests on this decision alone. What rested on the level before is open.
    pub(crate) fn decide(&mut self, held: &mut Held, level: usize, signal: usize, bit: u8)
        requires { (level < 64) × (signal < 296) × (bit < 2) }
        ensures { Decision self.old.chosen self.old.tried held.old.bits held.old.rests
            self.new.chosen self.new.tried held.new.bits held.new.rests }
    {
        reopen(held, level);
        self.chosen[level] = signal as u16;
        self.tried[level] = bit;
        held.bits[signal] = bit;
        held.rests[signal] = 1 << level;
    }

    // Back to the last decision of a contradiction: its signal gets the other bit, which rests on the others.
    pub(crate) fn jump_back(&self, held: &mut Held, level: usize, why: u64)
        requires { (level < 64) × (why / 2 ^ level ≡ 1) }
        ensures { JumpedBack self.now.chosen self.now.tried held.old.bits held.old.rests why
            held.new.bits held.new.rests }
    {
        let signal = usize::from(self.chosen[level]);
        if 296 <= signal {
            return;
        }
        let bit = if self.tried[level] == 0 { 1 } else { 0 };
        reopen(held, level);
        held.bits[signal] = bit;
        held.rests[signal] = why % (1 << level);
    }
}
