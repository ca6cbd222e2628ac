// Journals made by hand, such as no read and no call leaves.
use journal::Journal;
use network::Network;

// A number of steps, and one number that every place holds: a byte its lowest eight bits, an integer its lowest 31.
pub(crate) fn filled(steps: usize, number: usize) -> Journal {
    let byte = (number % 256) as u8;
    let integer = (number % 2147483648) as i32;
    let kinds = [byte; 64];
    let signals = [byte; 64];
    let fanins = [byte; 64];
    let thresholds = [integer; 64];
    let feeds = [byte; 1024];
    let weights = [integer; 1024];
    Journal {
        count: steps,
        kinds,
        signals,
        fanins,
        thresholds,
        feeds,
        weights,
    }
}

// The journal with the feeds of a network's first gate in the places of its newest step.
fn with_feeds(journal: Journal, network: Network) -> Journal {
    let mut result = journal;
    for i in 0..16 {
        result.feeds[i] = network.signals[i];
        result.weights[i] = network.weights[i];
    }
    result
}

// One step: its kind, its signal, the feed count that it claims, and its gate, which is the first of a network.
pub(crate) fn of_one_step(kind: usize, signal: usize, fanin: usize, network: Network) -> Journal {
    let mut result = with_feeds(journal::empty(), network);
    result.count = 1;
    result.kinds[0] = (kind % 256) as u8;
    result.signals[0] = (signal % 256) as u8;
    result.fanins[0] = (fanin % 256) as u8;
    result.thresholds[0] = network.thresholds[0];
    result
}
