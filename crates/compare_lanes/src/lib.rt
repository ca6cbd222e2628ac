// 32 frames at once through the joint of two networks, and all frames of a run read so. Its calls ask for what `unchecked` says.
#![tactic(auto)]

pub mod unchecked;
