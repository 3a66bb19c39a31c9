// The dated builds of change request 2.8, which is in specs/.

#![tactic(auto)]
