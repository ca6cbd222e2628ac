// The distinct feeds of two gates, of which a setting speaks. Document 02, No. 9.
#![tactic(auto)]

pub mod files;
pub mod unchecked;

ghost use Rattle.std.specs.Prelude.{◌≡◌};
ghost use Rattle.fold_feeds.specs.Feeds.{distinct_feeds};

use fold_edges::unchecked::{aligned_at, test_edge};
use network::Network;
use network_soundness::is_sound;
use unchecked::{listed, no_feeds};

// What `distinct_feeds` answers: 0 or the refusal, the number of distinct feeds, and their signals, rising. Spare places hold 0.
#[derive(Clone, Copy)]
pub struct DistinctFeeds {
    pub code: u8,
    pub count: usize,
    pub signals: [u8; 16],
}

// The distinct feeds of u and v: signal i is what bit i of a setting stands for. Refusals: 20 broken record, 11 no such gate, 12 not
// a feed, 7 too wide.
pub fn distinct_feeds(network: Network, u: usize, v: usize) -> DistinctFeeds
    ensures { result ≡ distinct_feeds network u v }
{
    if !is_sound(network) {
        return no_feeds(20);
    }
    if let Err(refusal) = test_edge(&network, u, v) {
        return no_feeds(refusal.number());
    }
    let a = aligned_at(&network, u, v);
    listed(a)
}
