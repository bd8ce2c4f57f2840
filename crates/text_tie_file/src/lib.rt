// No code: what a tie file is, without a reader. specs/ defines the file and its refusals by lines, words and bytes,
// proofs/ shows that the reader's definition is exactly that.
#![tactic(auto)]
