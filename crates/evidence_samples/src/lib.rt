// The samples of SPECIFICATION 13 that are proved from the definitions: specs/Table.antt, with one theorem in
// proofs/Table.antt.
#![tactic(auto)]
