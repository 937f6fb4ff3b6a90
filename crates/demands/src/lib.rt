// The three demands on one page, specs/Demands.antt, over the definitions that the calls promise, and a proof of each.
// There is no code here.
#![tactic(auto)]
