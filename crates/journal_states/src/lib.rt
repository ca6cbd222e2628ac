// The record of a state that a read and calls lead to, and what a call of a list leaves on it: definitions and laws, in specs/. No code.
#![tactic(auto)]
