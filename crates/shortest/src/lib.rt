// Shortest placement: for each numeral that a regular path reaches the path with fewest rows; definitions and laws stand in specs/.

#![tactic(auto)]
