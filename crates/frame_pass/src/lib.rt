// One pass over a network for up to 64 frames: each gate is fetched once, and its bits are found for all frames side by side. Its call
// asks for what `unchecked` says.
#![tactic(auto)]

pub mod unchecked;
