// The book of a half hour. Its calls are not public yet: they land together with reading by record and with what a settled book guarantees.
#![tactic(auto)]

mod filing;
mod filings;
mod keyed;
mod keys;
mod looking;
mod ranges;
mod rows;
mod trading;
