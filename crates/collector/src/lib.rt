// A client's collector of answers for one slot: it closes when two replicas' results agree.
// Clients ship this crate without the replica.
#![tactic(auto)]

mod collectors;

pub use collectors::{Closed, Unclosed, Waiting};
