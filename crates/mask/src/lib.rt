#![tactic(auto)]
// Sets of slots and of databases, each in one word. What their methods answer is told by the definitions of specs/.
mod by_test;
mod members;
mod set;

pub use by_test::gathered;
pub use members::Members;
pub use set::Set;
