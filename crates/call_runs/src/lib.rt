// What a list of calls answers and leaves, from a network just read and on a whole file: definitions and laws, in specs/. No code.
#![tactic(auto)]
