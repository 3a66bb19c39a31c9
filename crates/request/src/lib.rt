// What a build of a board is asked.

// Which rows start a path: those with parent 0, or those whose numeral is in a lent list. The list stands beside the rule and not in it, as the theorems on builds have the two.
#![tactic(auto)]

#[derive(Clone, Copy)]
pub enum Start {
    ParentZero,
    Listed,
}
