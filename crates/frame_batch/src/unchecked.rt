// The reading of a sound record: the two lengths, the frames, and then one pass over the network.
ghost use Rattle.std.specs.Prelude.{◌≡◌, true, ◌++◌, ◌≤◌, length, take, drop};
ghost use Rattle.basics.specs.Lists.{all};
ghost use Rattle.basics.specs.Refusals.{code_of, stored};
ghost use Rattle.network.specs.Threshold.{fits_frame};
ghost use Rattle.network.specs.Record.{sound_record};
ghost use Rattle.frame_batch.specs.Frames.{frames_answer};

use frame_pass::unchecked::frame_words;
use frame_reading::unchecked::fits_frame;
use network::Network;

// Whether no frame has a bit past the inputs.
fn frames_fit(inputs: usize, frames: &[u64]) -> bool
    requires { inputs ≤ 40 }
    ensures { result ≡ all (fits_frame inputs) frames.now }
{
    frames.iter().all(|frame| fits_frame(inputs, *frame))
}

// The output words of up to 64 frames, of a sound record. Refusals: 26 too many frames or too few places, 10 long frame.
pub fn read_sound(network: &Network, frames: &[u64], answers: &mut [u64]) -> u8
    requires { sound_record network.now ≡ true }
    ensures value { result ≡ code_of (frames_answer network.now frames.now answers.old) }
    ensures answers_after { answers.new ≡ stored (frames_answer network.now frames.now answers.old) answers.old }
{
    let count = frames.len();
    if 64 < count || answers.len() < count {
        return 26;
    }
    if !frames_fit(network.inputs, frames) {
        return 10;
    }
    let words = frame_words(network, frames);
    answers[..count].copy_from_slice(&words[..count]);
    0
}
