// No code: what the log factors of a symmetric matrix with whole logs achieve. specs/ states it, proofs/ has the
// theorem, which the MC64 scaling promises.
#![tactic(auto)]
