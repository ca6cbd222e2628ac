// From a gate one goes to its feeds, and from each feed to the gate behind it. The marks go by value, one for each gate, and the
// network is lent. A gate that is marked is not gone into again, so that at most one call for each gate is under way at a time, and a
// gate's highest feed is tried first.
ghost use Rattle.std.specs.Prelude.{◌+◌, ◌<◌};
ghost use Rattle.cut_marks.specs.Marks.{marks_of};
ghost use Rattle.cut_marking.specs.Marking.{Wired, Closed, GateMarked, Needed};

use cut_marks::Marks;
use network::Network;

// The marks with gate g and every gate that it needs.
pub fn mark_gate(network: &Network, marks: Marks, g: usize) -> Marks
    requires { (g < 128)
        × Wired network.now.fanins network.now.signals network.now.inputs (g + 1)
        × Closed network.now.fanins network.now.signals network.now.inputs (g + 1) (marks_of marks) }
    ensures { GateMarked network.now.fanins network.now.signals network.now.inputs g (marks_of marks) (marks_of result) }
{
    if marks.has(g) {
        return marks;
    }
    let mut marked = marks.with(g);
    for i in (0..usize::from(network.fanins[g])).rev() {
        let signal = usize::from(network.signals[16 * g + i]);
        if network.inputs <= signal {
            marked = mark_gate(network, marked, signal - network.inputs);
        }
    }
    marked
}

// Gate g and every gate that it needs, marked.
pub fn needed_gates(network: &Network, g: usize) -> Marks
    requires { (g < 128) × Wired network.now.fanins network.now.signals network.now.inputs (g + 1) }
    ensures { Needed network.now.fanins network.now.signals network.now.inputs g (marks_of result) }
{
    mark_gate(network, Marks::none(), g)
}
