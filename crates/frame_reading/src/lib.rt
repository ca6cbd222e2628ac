// The reading of a frame: the output bits of a network by the threshold rule.
#![tactic(auto)]

pub mod unchecked;

ghost use Rattle.std.specs.Prelude.{◌≡◌};
ghost use Rattle.frame_reading.specs.Reading.{reading};

use network::Network;
use network_soundness::is_sound;
use unchecked::{read_sound, refused};

// What reading a frame answers: 0 or the refusal, the output bits (output j in bit j), and how many of them are 1.
#[derive(Clone, Copy)]
pub struct Reading {
    pub code: u8,
    pub bits: u64,
    pub ones: u32,
}

// The outputs on a frame. Refusals: 20 broken record, 10 long frame.
pub fn read_frame(network: Network, frame: u64) -> Reading
    ensures { result ≡ reading network frame }
{
    if !is_sound(network) {
        return refused(20);
    }
    read_sound(network, frame)
}
