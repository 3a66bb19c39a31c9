// The plain machine, and that every list of calls on a board is answered as by it; definitions and laws stand in specs/.

#![tactic(auto)]
