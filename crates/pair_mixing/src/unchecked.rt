// Two gates merged, by their distinct feeds. The caller has tested the limits.
ghost use Rattle.std.specs.Prelude.{◌≡◌};
ghost use Rattle.network.specs.Record.{gate_record};
ghost use Rattle.fold_theory.specs.Aligned.{mix};
ghost use Rattle.pair_theory.specs.Alignments.{merged_of, Mergeable};
ghost use Rattle.pair_mixing.specs.Mixing.{Mixable};

use network::GateRecord;
use pair_theory::Alignment;

// k times x plus l times y.
pub fn mixed(k: usize, l: usize, x: i32, y: i32) -> i32
    requires { Mixable k l x y }
    ensures { result ≡ mix k l x y }
{
    (k as i32) * x + (l as i32) * y
}

// The gate of two aligned gates merged with k and l.
pub fn merged_gate(a: Alignment, k: usize, l: usize) -> GateRecord
    requires { Mergeable a k l }
    ensures { result ≡ gate_record (merged_of a k l) }
{
    let mut signals = [0u8; 16];
    let mut weights = [0i32; 16];
    let mut fanin: usize = 0;
    for i in 0..a.count {
        let w = mixed(k, l, a.us[i], a.vs[i]);
        if w != 0 {
            signals[fanin] = a.signals[i];
            weights[fanin] = w;
            fanin += 1;
        }
    }
    let threshold = mixed(k, l, a.thresholds.own, a.thresholds.on);
    GateRecord {
        fanin: fanin as u8,
        threshold,
        signals,
        weights,
    }
}
