// The totals of a sheet, and a lane's line with the totals after it. Its calls ask for what `unchecked` says.
#![tactic(auto)]

pub mod unchecked;
