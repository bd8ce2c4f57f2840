// No code: the cost graph of a tie file, as specs/ defines it; proofs/ has the laws that code cites.
#![tactic(auto)]
