// Sparse matrices in compressed columns: tests of what is lent, and assembly from triplets. Indices are u32, slices are
// lent.
#![tactic(auto)]

pub mod csc;
pub mod general;
pub mod layout;
