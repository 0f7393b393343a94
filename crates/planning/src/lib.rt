// The corrected plan of one generation contract, and its working.
#![tactic(auto)]

pub mod all;
pub mod holdings;
mod laws;
pub mod plan;
pub mod text;
pub mod working;
