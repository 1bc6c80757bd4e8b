// What a comparison does with one pair of sides at one depth: whether they are identical, the sides put in place, the side of the next
// head step, a step, and all head steps.
#![tactic(auto)]

mod sides;

pub use sides::{
    NextStep, Progress, Settled, Sizes, choose, identical, open_pair, same_expression, settle,
    shapes_of, turn,
};
