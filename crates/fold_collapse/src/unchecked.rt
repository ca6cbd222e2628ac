// Collapse in a sound record, by the pairs of all readers: the merges, then the drop.
ghost use Rattle.std.specs.Prelude.{◌≡◌, ◌+◌};
ghost use Rattle.network.specs.Record.{gate_record, layout};
ghost use Rattle.network_places.specs.Parts.{StoredIn};
ghost use Rattle.pair_theory.specs.Alignments.{alignment_of, merged_of};
ghost use Rattle.fold_edges.specs.Edges.{edge_at};
ghost use Rattle.fold_reader_pairs.specs.Collapsing.{collapsed_by, CollapsesBy};
ghost use Rattle.fold_collapse.specs.Merging.{MergesIn};

use fold_edges::unchecked::aligned_at;
use fold_reader_pairs::Pairs;
use network::Network;
use network_places::unchecked::store_gate;
use network_removal::unchecked::remove_gate;
use pair_mixing::unchecked::merged_gate;

// Gate u merged with k and l into its reader with number g.
fn merge_reader(network: &mut Network, u: usize, g: usize, k: usize, l: usize)
    requires { MergesIn network.old u g k l }
    ensures { StoredIn g (gate_record (merged_of (alignment_of (edge_at network.old u (network.old.inputs + g))) k l))
        network.old network.new }
{
    let a = aligned_at(network, u, network.inputs + g);
    store_gate(network, g, merged_gate(a, k, l));
}

// Gate u collapsed into its readers by their pairs: every reader merged, and u removed.
pub fn collapse_by_pairs(network: &mut Network, u: usize, pairs: &Pairs)
    requires { CollapsesBy network.old u pairs.now }
    ensures { network.new ≡ layout (collapsed_by network.old u pairs.now) }
{
    for g in 0..network.gates {
        let k = usize::from(pairs.ks[g]);
        let l = usize::from(pairs.ls[g]);
        if k != 0 {
            merge_reader(network, u, g, k, l);
        }
    }
    remove_gate(network, u);
}
