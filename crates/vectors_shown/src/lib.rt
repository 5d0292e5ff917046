// What the calls left in lent memory, as the lines of the vectors' program: values, a row, a table with its pool, each by its bytes. Everything is
// total, so wrong bytes are shown too, and every word of a row, a term or a table is either printed or said to be zero. Assumes nothing.
#![tactic(auto)]

pub mod bytes;
pub mod rows;
pub mod tables;
pub mod values;
