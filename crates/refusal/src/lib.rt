// The refusals of all layers: why a call refuses, and what a refusal tells. Every layer has an error enum of its own, which
// carries those of the layers below it, so that `?` takes a refusal up with its number, its layer and its place. `Display` is written
// out for each: a derived one would have to name each variant again to ask for its refusal. `From` is too: a derived one gives no contract.
#![tactic(auto)]

mod collectors;
mod packets;
mod proofs;
mod replicas;
mod sealers;
mod tellings;

pub use collectors::CollectorFault;
pub use packets::PacketFault;
pub use proofs::ProofFault;
pub use replicas::ReplicaFault;
pub use sealers::SealerFault;
pub use tellings::{Layer, Refusal};
