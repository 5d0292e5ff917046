// Whole programs: the linking of callees, and the tests behind refusals 3 to 8, each over the whole text before the next.
#![tactic(auto)]

pub mod link;
pub mod verdict;
