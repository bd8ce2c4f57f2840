// No code: how near a complete match under the whole-number profile is to the largest product of a complete choice of
// entries, for a matrix of either kind. specs/ states it, proofs/ proves it.
#![tactic(auto)]
