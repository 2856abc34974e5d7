// What the operations on jobs share: their kinds, a job read and judged, and what is promised of a chain of steps
// for packings of a list and for the counts of a row.
#![tactic(auto)]

pub mod judge;
pub mod kind;
pub mod read;
mod rows;

// The least places of a list buffer.
pub use chains::LIST_PLACES;
