// Seals: what is genuine under which replica's number, and the two sealers.
// Clients ship this crate without the replica.
#![tactic(auto)]

mod benches;
mod hashes;
mod keyed;
mod numbers;
mod proofs;
mod sealers;
mod tags;

pub use benches::{BenchSealer, BenchTags};
pub use hashes::siphash;
pub use keyed::{SipSealer, SipTags};
pub use numbers::ReplicaNumber;
pub use proofs::open_proof;
pub use sealers::{Sealer, open, sign};
pub use tags::{TagSealer, Tags};
