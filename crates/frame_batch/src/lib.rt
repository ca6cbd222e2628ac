// The reading of up to 64 frames in one pass on a record.
#![tactic(auto)]

pub mod unchecked;

ghost use Rattle.std.specs.Prelude.{◌≡◌};
ghost use Rattle.basics.specs.Refusals.{code_of, stored};
ghost use Rattle.frame_batch.specs.Frames.{frames_answer};

use network::Network;
use network_soundness::is_sound;
use unchecked::read_sound;

// The outputs on each frame: the word of frame i goes into place i of the answers. Refusals: 20 broken record, 26 too many frames or too
// few places, 10 long frame.
pub fn read_frames(network: Network, frames: &[u64], answers: &mut [u64]) -> u8
    ensures value { result ≡ code_of (frames_answer network frames.now answers.old) }
    ensures answers_after { answers.new ≡ stored (frames_answer network frames.now answers.old) answers.old }
{
    if !is_sound(network) {
        return 20;
    }
    read_sound(&network, frames, answers)
}
