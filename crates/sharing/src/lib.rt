// A whole shared out by a division rule among the rows of one owner, on one level and on two.
#![tactic(auto)]

pub mod levels;
pub mod rows;
