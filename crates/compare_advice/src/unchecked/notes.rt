// The notes of a comparison. Nothing that reads them trusts them.
ghost use Rattle.std.specs.Prelude.{◌<◌, IfSome, IsNone, IsTrue};

use compare_lanes::unchecked::SIGNALS;

// A mark for each signal, the frame that is found, if one is, and the first network's outputs.
#[derive(Drop)]
pub struct Notes {
    pub(crate) marks: [u64; 296],
    pub found: Option<u64>,
    drivers: [u8; 16],
    outputs: usize,
}

impl Notes {
    // Notes with the first network's outputs, no marks and no frame.
    pub fn new(drivers: &[u8; 16], outputs: usize) -> Notes
        ensures { IsNone result.found }
    {
        Notes {
            marks: [0; SIGNALS],
            found: None,
            drivers: *drivers,
            outputs,
        }
    }

    // Whether two signals have one mark. There is none past the last signal.
    pub fn same_mark(&self, p: usize, q: usize) -> bool
        ensures { IsTrue result → (p < 296) × (q < 296) }
    {
        p < SIGNALS && q < SIGNALS && self.marks[p] == self.marks[q]
    }

    // The first network's signal of output j.
    pub fn first_signal(&self, j: usize) -> Option<u16>
        ensures { IfSome result (λ p. p < 256) }
    {
        if j < self.outputs && j < self.drivers.len() {
            Some(u16::from(self.drivers[j]))
        } else {
            None
        }
    }
}
