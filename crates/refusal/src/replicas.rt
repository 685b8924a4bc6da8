// Why a replica does not carry out a call.
ghost use Rattle.std.specs.Prelude.{◌≡◌};
ghost use Rattle.refusal.specs.Refusals.{from_proof, of_replica};

use crate::proofs::ProofFault;
use crate::tellings::{Layer, Refusal};
use std::error::Error;
use std::fmt;

#[derive(Clone, Copy, PartialEq, Eq, Debug)]
pub enum ReplicaFault {
    // The reply space is too small.
    Space,
    // The packet or the proof does not stand: no statements, no genuine seals, or a broken rule.
    Proof(ProofFault),
    // The statement is of another view.
    View,
    // The signer, or this replica, has not the part in the view that this needs.
    Role,
    // The slot is not open, or the checkpoint is not one of the next two.
    Slot,
    // The slot has no order yet.
    Unordered,
    // Something else was ordered, decided or marked.
    Unlike,
    // This is held already.
    Held,
    // The slot is prepared in the present view.
    Prepared,
    // The slot is not decided.
    Undecided,
    // There is no view after this one.
    LastView,
}

impl From<ProofFault> for ReplicaFault {
    ghost from_gives = { λ e r. r ≡ from_proof e };

    fn from(lower: ProofFault) -> ReplicaFault {
        ReplicaFault::Proof(lower)
    }
}

impl ReplicaFault {
    pub fn refusal(self) -> Refusal
        ensures { result ≡ of_replica self }
    {
        let number = match self {
            ReplicaFault::Proof(fault) => return fault.refusal(),
            ReplicaFault::Space => 1,
            ReplicaFault::View => 7,
            ReplicaFault::Role => 8,
            ReplicaFault::Slot => 9,
            ReplicaFault::Unordered => 10,
            ReplicaFault::Unlike => 11,
            ReplicaFault::Held => 12,
            ReplicaFault::Prepared => 13,
            ReplicaFault::Undecided => 14,
            ReplicaFault::LastView => 15,
        };
        Refusal {
            number,
            layer: Layer::Replica,
            place: None,
        }
    }
}

impl fmt::Display for ReplicaFault {
    fn fmt<W: fmt::Write>(&self, f: &mut fmt::Formatter<W>) -> fmt::Result {
        let words = match self {
            ReplicaFault::Proof(fault) => return write!(f, "{fault}"),
            ReplicaFault::Space =>
                "the reply space is too small; hand in 390 bytes or more, and call again",
            ReplicaFault::View =>
                "the statement is of another view than this replica's; let the replica catch up by wishes, or drop the packet",
            ReplicaFault::Role =>
                "the signer or this replica has no such part in this view; look up who leads and who rests in it",
            ReplicaFault::Slot =>
                "the slot is not open here, or the checkpoint is not one of the next two; run the decided slots and exchange checkpoints",
            ReplicaFault::Unordered =>
                "the slot has no order in this view yet; hand in the order first, then this vote again",
            ReplicaFault::Unlike =>
                "something else is ordered, decided or marked here; the first stays, and the signer should be looked at",
            ReplicaFault::Held => "this is held already; nothing needs to be done",
            ReplicaFault::Prepared =>
                "the slot is prepared in the present view, so there is nothing to report yet; leave the view first",
            ReplicaFault::Undecided =>
                "the slot is not decided yet; wait for its commits, or hand in a decision certificate",
            ReplicaFault::LastView => "this is the last view, and it cannot be left",
        };
        let refusal = self.refusal();
        write!(f, "{refusal}: {words}")
    }
}

impl Error for ReplicaFault {}
