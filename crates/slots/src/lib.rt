// The state of a replica without its sealer and its service: the records of the open slots, the view, the count, the floor,
// kept wishes and kept marks; what it refuses, and what each call changes in it.
#![tactic(auto)]

mod checks;
mod cores;
mod records;
mod tables;

pub use cores::Core;
pub use records::{Certificate, Record, Votes};
pub use tables::Table;
