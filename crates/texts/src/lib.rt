// Text in ASCII in lent bytes: words and decimal numbers.
#![tactic(auto)]

pub mod unchecked;
