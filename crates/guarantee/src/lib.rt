// Demand 3 of every list of calls and every build after it, and the marked cases; definitions and laws stand in specs/. Crate `whole_replay` runs it.

#![tactic(auto)]
