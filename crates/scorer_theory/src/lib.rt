// The ten-pin rules, scores and known games: definitions and laws, in specs/. No code.
#![tactic(auto)]
