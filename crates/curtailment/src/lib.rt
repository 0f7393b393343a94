// Curtailment: what a curtailment group saved, what its retailer is settled for, and the group's imbalance, by either method.
#![tactic(auto)]

pub mod methods;
pub mod retail;
