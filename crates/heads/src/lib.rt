// Which head step an expression has, if any: a contraction or an unfolding, and where its redex lies.
#![tactic(auto)]

mod heads;

pub use heads::{Head, HeadStep, head_of};
