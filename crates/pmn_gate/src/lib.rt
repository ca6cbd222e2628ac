// Reading one gate from the front of the bytes that are left of a PMN file.
#![tactic(auto)]

pub mod unchecked;

// A feed as it was read.
#[derive(Clone, Copy)]
pub struct Feed {
    pub signal: u8,
    pub weight: i32,
}
