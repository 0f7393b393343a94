// The terms of the trade that every crate above speaks in: records, codes, the balance of a contract, and refusals.
#![tactic(auto)]

pub mod balance;
pub mod codes;
pub mod partner;
pub mod records;
pub mod refusal;
pub mod text;
