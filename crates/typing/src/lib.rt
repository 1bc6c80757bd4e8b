// The rules of categories that compare two of them: an argument's category and the wanted one, and that of `<A>B`.
//
// The category of an argument is found one level deeper than its constant's, and the wanted one is made two levels deeper, if it is
// not seen at once that it is the found one.
#![tactic(auto)]

mod application;
mod arguments;
mod comparisons;

pub use application::applied;
pub use arguments::{Wanted, argument_fits, stored_fits};
pub use comparisons::compare_units;
