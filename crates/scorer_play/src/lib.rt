// The play of a game on a network. The frames are read in one pass, and the balls played on the output words.
#![tactic(auto)]

mod unchecked;

ghost use Rattle.std.specs.Prelude.{◌≡◌};
ghost use Rattle.scorer_play.specs.Sheets.{network_sheet};

use frame_batch::read_frames;
use network::Network;
use scorer_tally::Sheet;
use scorer_tally::unchecked::refused;
use unchecked::{play, short_frames};

// The sheet of a game, from the frames after each ball. Refusals: 20 broken network, 27 fewer than ten outputs; then ball by ball.
pub fn score_network(network: Network, frames: &[u64]) -> Sheet
    ensures { result ≡ network_sheet network frames.now }
{
    let inputs = network.inputs;
    if 40 < inputs {
        return refused(20);
    }
    let count = short_frames(inputs, frames);
    let mut words = [0u64; 22];
    let code = read_frames(network, &frames[..count], &mut words);
    if code != 0 {
        return refused(code);
    }
    if network.outputs < 10 {
        return refused(27);
    }
    play(&words[..count], frames.len())
}
