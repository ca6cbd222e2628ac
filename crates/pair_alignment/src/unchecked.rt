// Two gates aligned by their distinct feeds. The caller has tested the gates and the edge.
ghost use Rattle.std.specs.Prelude.{◌≡◌, not, ◌||◌, ◌≤◌};
ghost use Rattle.network.specs.Limits.{is_zero};
ghost use Rattle.network.specs.Record.{gate_in};
ghost use Rattle.pair_theory.specs.Alignments.{weight_table, edge_between, Alignable, with_u, alignment_of};

use fold_theory::Thresholds;
use network::{Board, GateRecord};
use pair_complement::unchecked::complemented;
use pair_theory::Alignment;

// The weight of each signal, 0 where it is no feed. The last feed is stored first.
fn spread(gate: GateRecord) -> [i32; 256]
    requires { gate.fanin ≤ 16 }
    ensures { result ≡ weight_table (gate_in gate).feeds }
{
    let mut table = [0i32; 256];
    for i in (0..usize::from(gate.fanin)).rev() {
        table[usize::from(gate.signals[i])] = gate.weights[i];
    }
    table
}

// Whether one of two weights is not 0.
fn either(x: i32, y: i32) -> bool
    ensures { result ≡ not (is_zero x) || not (is_zero y) }
{
    (x != 0) | (y != 0)
}

// Two gates by their distinct feeds, u itself being the gate that votes: all feeds are counted, and the first 16 listed. u is none of
// them, so its weight in v is taken out before.
fn align_with_u(
    board: Board,
    gate_u: GateRecord,
    gate_v: GateRecord,
    u: usize,
    v: usize,
) -> Alignment
    requires { Alignable (edge_between board gate_u gate_v u v) }
    ensures { result ≡ with_u (edge_between board gate_u gate_v u v) }
{
    let in_u = spread(gate_u);
    let mut in_v = spread(gate_v);
    let b = in_v[u];
    in_v[u] = 0;
    let mut signals = [0u8; 16];
    let mut us = [0i32; 16];
    let mut vs = [0i32; 16];
    let mut count: usize = 0;
    for s in 0..v {
        let x = in_u[s];
        let y = in_v[s];
        if either(x, y) {
            if count < 16 {
                signals[count] = s as u8;
                us[count] = x;
                vs[count] = y;
            }
            count += 1;
        }
    }
    let own = gate_u.threshold;
    let off = gate_v.threshold;
    Alignment {
        count,
        signals,
        us,
        vs,
        thresholds: Thresholds {
            own,
            on: off - b,
            off,
            board,
        },
    }
}

// Two gates by their distinct feeds. Where u's vote would raise what v's other feeds must reach, its complement votes.
pub fn align(board: Board, gate_u: GateRecord, gate_v: GateRecord, u: usize, v: usize) -> Alignment
    requires { Alignable (edge_between board gate_u gate_v u v) }
    ensures { result ≡ alignment_of (edge_between board gate_u gate_v u v) }
{
    let a = align_with_u(board, gate_u, gate_v, u, v);
    let t = a.thresholds;
    if t.on <= t.off {
        return a;
    }
    complemented(a)
}
