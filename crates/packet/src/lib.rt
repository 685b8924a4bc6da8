// Statements of thirty bytes and the packets that carry them: one encoding, read and written alike.
// Clients ship this crate without the replica.
#![tactic(auto)]

mod fields;
mod kinds;
mod packets;
mod parts;
mod proofs;
mod statements;

pub use fields::{Slot, View};
pub use kinds::{Kind, UnknownKind};
pub use packets::{Packet, Reader, Sealed, read_packet};
pub use parts::Parts;
pub use proofs::read_proof;
pub use statements::Statement;
