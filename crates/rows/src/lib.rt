// The rows of the search's table: the least totals of an item from one carry state to each, with the first rule that comes to each, looked
// up where the table has them and solved where it has not.
#![tactic(auto)]

pub mod carry;
mod leaf;
pub mod one;
pub mod slots;
pub mod table;
pub mod vector;
