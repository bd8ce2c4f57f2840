// No code: the entries of a match's pairs, as specs/ defines them; proofs/ shows that the text of `pairs` reads back as
// these entries.
#![tactic(auto)]
