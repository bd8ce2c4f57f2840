// No code: what the exponents of a complete match do to the magnitudes of a matrix of either kind. specs/ states it,
// proofs/ proves it.
#![tactic(auto)]
