// The preview on a sound record: the collapse is made in a copy of it.
ghost use Rattle.std.specs.Prelude.{◌≡◌, true, IfOk};
ghost use Rattle.network.specs.Record.{layout, sound_record};
ghost use Rattle.network_report.specs.Size.{reported};
ghost use Rattle.fold_reader_pairs.specs.Collapsing.{collapsed_by, CollapsesBy};
ghost use Rattle.fold_preview.specs.Preview.{previewed};
ghost use Rattle.fold_preview.specs.Sizes.{as_size};

use fold_collapse::unchecked::collapse_by_pairs;
use fold_reader_pairs::Pairs;
use fold_reader_pairs::unchecked::collapse_pairs;
use network::Network;
use network_report::SizeReport;
use network_report::unchecked::size_of;
use refusals::Refusal;

// The size of the network with gate u collapsed into its readers by their pairs. It has a frame of its own.
#[inline(never)]
fn collapsed_size(network: &Network, u: usize, pairs: &Pairs) -> SizeReport
    requires collapses { CollapsesBy network.now u pairs.now }
    requires sound { sound_record (layout (collapsed_by network.now u pairs.now)) ≡ true }
    ensures { result ≡ reported (layout (collapsed_by network.now u pairs.now)) }
{
    let mut after = *network;
    collapse_by_pairs(&mut after, u, pairs);
    size_of(&after)
}

// Gates, cost and levels of the network that a collapse of the gate with signal s would leave. Refusals: 11 no such gate, 17 still read (an
// output), then the first reader's 7 or 16.
pub fn size_after(network: &Network, s: usize) -> Result<SizeReport, Refusal>
    requires { sound_record network.now ≡ true }
    ensures size { as_size result ≡ previewed network.now s }
    ensures accepts { IfOk result (λ z. z.code ≡ 0) }
{
    let pairs = collapse_pairs(network, s)?;
    Ok(collapsed_size(network, s, &pairs))
}

// A report, or that of a refusal: its number, and 0 for each figure.
pub(crate) fn report(size: Result<SizeReport, Refusal>) -> SizeReport
    ensures { result ≡ as_size size }
{
    match size {
        Ok(size) => size,
        Err(refusal) => SizeReport {
            code: refusal.number(),
            gates: 0,
            cost: 0,
            levels: 0,
        },
    }
}

// What `size_after` answers, as a report with a code.
pub fn preview_at(network: &Network, s: usize) -> SizeReport
    requires { sound_record network.now ≡ true }
    ensures { result ≡ previewed network.now s }
{
    report(size_after(network, s))
}
