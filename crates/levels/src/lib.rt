// Levelled part lists: lines whose columns are levels, and the nodes that they stand for; definitions and laws stand in specs/.

#![tactic(auto)]
