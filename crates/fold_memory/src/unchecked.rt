// What is left of a sweep's memory after a collapse. It means something only where the gate was collapsed.
ghost use Rattle.std.specs.Prelude.{◌≡◌, ◌<◌};
ghost use Rattle.network.specs.Changes.{lowered, raised};
ghost use Rattle.fold_memory.specs.Keeping.{lowered_hints, RefuserKept, RefusersKept};

use crate::Memory;

impl Memory {
    // Brought to what holds after gate g was collapsed into its readers, the gates whose k is not 0: what is remembered of the higher gates moves down by
    // one, each hint to a higher gate falls by one, and a refuser stays only where it still refuses.
    pub fn collapse(&mut self, ks: &[u8; 128], g: usize)
        ensures hints { self.new.hints ≡ lowered_hints self.old.hints g }
        ensures refusers { RefusersKept self.old.refusers ks.now g 127 self.new.refusers }
    {
        for i in 0..127 {
            let from = former_number(i, g);
            let hint = lowered_number(self.hints[from], g);
            self.hints[i] = hint;
            let refuser = kept_refuser(self.refusers[from], ks, g, from);
            self.refusers[i] = refuser;
        }
    }
}

// A gate's number after gate g is gone.
#[tactic(auto, using(network::specs::ChangeLaws::lowered_high, network::specs::ChangeLaws::lowered_low))]
fn lowered_number(number: u8, g: usize) -> u8
    ensures { result ≡ lowered g number }
{
    if g < usize::from(number) {
        number - 1
    } else {
        number
    }
}

// The number that gate i had before gate g was gone.
#[tactic(auto, using(network::specs::ChangeLaws::raised_low, network::specs::ChangeLaws::raised_high))]
fn former_number(i: usize, g: usize) -> usize
    requires { i < 127 }
    ensures number { result ≡ raised g i }
    ensures within { result < 128 }
{
    if i < g { i } else { i + 1 }
}

// The refuser of gate w after gate g was collapsed into its readers, the gates whose k is not 0. It stays only if it is not gate g and
// neither it nor gate w read gate g.
fn kept_refuser(refuser: u8, ks: &[u8; 128], g: usize, w: usize) -> u8
    requires { w < 128 }
    ensures { result < 128 → RefuserKept ks.now g w refuser result }
{
    let reader = usize::from(refuser);
    if 128 <= reader || reader == g || ks[w] != 0 || ks[reader] != 0 {
        return 128;
    }
    lowered_number(refuser, g)
}
