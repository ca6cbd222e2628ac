// A frame, and a batch of frames, on the network of a whole file. The record that was read is sound, and not tested again.
#![tactic(auto)]

ghost use Rattle.std.specs.Prelude.{◌≡◌};
ghost use Rattle.basics.specs.Refusals.{code_of, stored};
ghost use Rattle.frame_files.specs.Files.{frame_places, file_frames};

use frame_batch::unchecked::read_sound;
use pmn_opening::unchecked::places::put_two;
use pmn_opening::unchecked::refusal;

// The outputs of a file's network on one frame: their bits go into place 0 of the answer, the number of ones into place 1. Refusals: as read,
// 18 for fewer than two places, 10 long frame.
pub fn read_file_frame(file: &[u8], frame: u64, answer: &mut [u64]) -> u8
    ensures value { result ≡ code_of (frame_places file.now frame answer.old) }
    ensures answer_after { answer.new ≡ stored (frame_places file.now frame answer.old) answer.old }
{
    let loaded = pmn_reader::read(file);
    let code = refusal(file, loaded, answer.len(), 2);
    if code != 0 {
        return code;
    }
    let reading = frame_reading::unchecked::read_sound(loaded.network, frame);
    put_two(answer, reading.code, reading.bits, u64::from(reading.ones))
}

// The outputs of a file's network on each frame. Refusals: as read, 26 too many frames or too few places, 10 long frame.
pub fn read_file_frames(file: &[u8], frames: &[u64], answers: &mut [u64]) -> u8
    ensures value { result ≡ code_of (file_frames file.now frames.now answers.old) }
    ensures answers_after { answers.new ≡ stored (file_frames file.now frames.now answers.old) answers.old }
{
    let loaded = pmn_reader::read(file);
    let code = refusal(file, loaded, 0, 0);
    if code != 0 {
        return code;
    }
    read_sound(&loaded.network, frames, answers)
}
