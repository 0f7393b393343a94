// Settling: what every owner used, what every group and retail contract is measured by, and every imbalance.
#![tactic(auto)]

pub mod demand;
pub mod groups;
mod laws;
pub mod retailers;
