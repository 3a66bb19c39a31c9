// The nodes of a build, their bodies and the build's refusals; definitions and laws stand in specs/.

#![tactic(auto)]
