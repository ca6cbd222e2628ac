// What a collapse leaves as it was, but for the signals that fall by one: definitions and laws, in specs/. No code.
#![tactic(auto)]
