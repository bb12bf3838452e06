//! Rows of a step that use the objects of a node: the built-in operations, and what makes, reads and changes objects.
#![tactic(auto)]

mod arrays;
mod dispatch;
mod fields;
mod looks;
mod making;
mod numbers;
mod on_values;
mod refusing;
mod rounds;
mod semaphores;
mod tags;

pub use dispatch::apply;
pub use fields::{get, put};
pub use making::{make_array, make_record, make_tag};
pub use rounds::{each, for_each};
pub use tags::tagged;
