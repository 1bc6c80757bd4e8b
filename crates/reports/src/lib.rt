// What the test programs read of a case, what they lend, and what they write of the outcome.
#![tactic(auto)]

pub mod arguments;
pub mod header;
pub mod report;
pub mod stores;
