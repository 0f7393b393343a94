// The output of plants, allotted to their shares by rank.
#![tactic(auto)]

pub mod claims;
mod laws;
pub mod output;
