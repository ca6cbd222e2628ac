// Two gates of a record: the tests that both are gates and that one feeds the other, and the two aligned by their distinct feeds.
ghost use Rattle.std.specs.Prelude.{◌≡◌, T};
ghost use Rattle.basics.specs.Refusals.{code_of};
ghost use Rattle.refusals.specs.Numbers.{as_answer};
ghost use Rattle.network.specs.Limits.{board_ok};
ghost use Rattle.fold_theory.specs.Merge.{on_dial};
ghost use Rattle.pair_theory.specs.Alignments.{alignment_of};
ghost use Rattle.fold_readers.specs.Arrays.{SoundGates};
ghost use Rattle.fold_edges.specs.Edges.{edge_at, ReadsIn};
ghost use Rattle.fold_edges.specs.Codes.{first_failing, edge_tests_at};

use fold_readers::unchecked::reads_gate;
use network::Network;
use network_limits::is_gate;
use network_places::unchecked::gate_at;
use pair_alignment::unchecked::align;
use pair_theory::Alignment;
use refusals::Refusal;

// Whether u and v are gates, and u feeds v. Refusals: 11 no such gate, 12 not a feed.
pub fn test_edge(network: &Network, u: usize, v: usize) -> Result<(), Refusal>
    requires { SoundGates network.now }
    ensures { code_of (as_answer result) ≡ first_failing (edge_tests_at network.now u v) }
{
    let inputs = network.inputs;
    let gates = network.gates;
    let both = is_gate(inputs, gates, u) & is_gate(inputs, gates, v);
    if !both {
        return Err(Refusal::NoSuchGate);
    }
    if !reads_gate(network, v - inputs, u) {
        return Err(Refusal::NotAFeed);
    }
    Ok(())
}

// Gates u and v by their distinct feeds, on a sound board.
pub fn aligned_at(network: &Network, u: usize, v: usize) -> Alignment
    requires sound_gates { SoundGates network.now }
    requires reads_in { ReadsIn network.now u v }
    requires t { T (board_ok network.now.board) }
    ensures { result ≡ alignment_of (edge_at network.now u v) }
{
    let gate_u = gate_at(network, u - network.inputs);
    let gate_v = gate_at(network, v - network.inputs);
    align(network.board, gate_u, gate_v, u, v)
}

// Whether a multiplier is on the dial.
#[tactic(auto, unfolding(fold_theory::specs::Merge::on_dial, basics::specs::Lists::between))]
pub fn on_dial(k: usize) -> bool
    ensures { result ≡ on_dial k }
{
    (1..=32).contains(&k)
}
