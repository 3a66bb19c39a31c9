// Islands of rows that no start row and no top orphan reaches, and the entries that join them to the tree; definitions and laws stand in specs/.

#![tactic(auto)]
