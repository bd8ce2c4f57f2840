// No code: the graph of a match's pairs, as specs/ defines it; proofs/ shows that its match is those pairs.
#![tactic(auto)]
