// The list of the distinct feeds of two gates, and the places that it goes into. The caller has tested what each call asks for.
ghost use Rattle.std.specs.Prelude.{◌≡◌, ◌≤◌, length};
ghost use Rattle.basics.specs.Refusals.{refused, stored};
ghost use Rattle.pmn_opening.specs.Places.{answer_of};
ghost use Rattle.fold_feeds.specs.Feeds.{as_feeds};
ghost use Rattle.fold_feeds.specs.Parts.{feeds_of_alignment, feed_places};

use crate::DistinctFeeds;
use pair_theory::Alignment;

// A refusal: no feeds.
pub fn no_feeds(code: u8) -> DistinctFeeds
    ensures { result ≡ as_feeds (refused code) }
{
    DistinctFeeds {
        code,
        count: 0,
        signals: [0; 16],
    }
}

// The distinct feeds of two gates. Refusal: 7 too wide.
#[tactic(auto, unfolding(crate::specs::Parts::feeds_of_alignment))]
pub fn listed(a: Alignment) -> DistinctFeeds
    ensures { result ≡ feeds_of_alignment a }
{
    if a.count > 16 {
        return no_feeds(7);
    }
    let signals = a.signals;
    DistinctFeeds {
        code: 0,
        count: a.count,
        signals,
    }
}

// Their number and their signals, which came with code 0, at the front of lent places; nothing with any other code. The places after
// them stay as they were. The answer is the code.
pub fn put_feeds(answer: &mut [u64], listed: DistinctFeeds) -> u8
    requires in_bounds { 17 ≤ length answer.old }
    requires count_bound { listed.count ≤ 16 }
    ensures value { result ≡ listed.code }
    ensures answer_after { answer.new ≡ stored (answer_of listed.code (feed_places listed)) answer.old }
{
    let code = listed.code;
    if code != 0 {
        return code;
    }
    let count = listed.count;
    answer[0] = count as u64;
    // Kept: after a loop over `iter_mut().zip(..)` a proof knows the answer's length, and not its places.
    for i in 0..count {
        answer[1 + i] = u64::from(listed.signals[i]);
    }
    code
}
