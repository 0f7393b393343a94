// Corrected trades: the figure of every line, and what each contract sold and bought.
#![tactic(auto)]

pub mod balances;
pub mod corrected;
mod laws;
pub mod lines;
