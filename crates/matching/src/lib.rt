// No code: the theory of matchings in bipartite graphs that other crates cite. specs/ has the definitions, proofs/ the
// theorems.
#![tactic(auto)]
