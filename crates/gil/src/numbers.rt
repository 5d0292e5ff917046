// "The row is answered by its number and 256": what a row that is found is answered by more than its number.
pub const FIRST_ROW: u32 = 256;
