// Document 01's sheet of examples, those marked P: one table in specs/Sheet.antt over the definitions that the promises
// cite, and one claim about it, which the checker computes. There is no code here.
#![tactic(auto)]
