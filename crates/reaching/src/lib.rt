// The lines reached from a line by following names. A line names lines before it, so one pass downwards marks them all.
// specs/Posts has the contracts.
#![tactic(auto)]

mod reaching;

pub use reaching::put_beneath;
