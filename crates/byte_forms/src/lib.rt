// The match and the log factors with every wide slice as bytes, low byte first, at the small limits of the comparison.
#![tactic(auto)]

pub mod factor_bytes;
pub mod match_bytes;
