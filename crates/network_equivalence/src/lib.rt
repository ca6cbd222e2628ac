// Assignments that fit a network, and networks that agree on every frame: definitions and laws, in specs/. No code.
#![tactic(auto)]
