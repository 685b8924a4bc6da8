// Why a collector is not made, does not take an answer, or does not close.
ghost use Rattle.std.specs.Prelude.{◌≡◌};
ghost use Rattle.refusal.specs.Refusals.{from_sealer, of_collector};

use crate::sealers::SealerFault;
use crate::tellings::{Layer, Refusal};
use std::error::Error;
use std::fmt;

#[derive(Clone, Copy, PartialEq, Eq, Debug)]
pub enum CollectorFault {
    // The bytes are no answer under a genuine seal.
    Sealer(SealerFault),
    // The number is no slot's, or the answer is for another slot.
    Slot,
    // The signer gave another result before.
    Unlike,
    // The signer's result is held already.
    Held,
    // No two signers' results agree yet.
    Apart,
}

impl From<SealerFault> for CollectorFault {
    ghost from_gives = { λ e r. r ≡ from_sealer e };

    fn from(lower: SealerFault) -> CollectorFault {
        CollectorFault::Sealer(lower)
    }
}

impl CollectorFault {
    pub fn refusal(self) -> Refusal
        ensures { result ≡ of_collector self }
    {
        let number = match self {
            CollectorFault::Sealer(fault) => return fault.refusal(),
            CollectorFault::Slot => 9,
            CollectorFault::Unlike => 11,
            CollectorFault::Held => 12,
            CollectorFault::Apart => 14,
        };
        Refusal {
            number,
            layer: Layer::Collector,
            place: None,
        }
    }
}

impl fmt::Display for CollectorFault {
    fn fmt<W: fmt::Write>(&self, f: &mut fmt::Formatter<W>) -> fmt::Result {
        let words = match self {
            CollectorFault::Sealer(fault) => return write!(f, "{fault}"),
            CollectorFault::Slot =>
                "there is no such slot, or the answer is for another slot; a collector serves one slot from 1 to 4,000,000,000",
            CollectorFault::Unlike =>
                "this replica gave another result before; the first one stays, and the replica should be looked at",
            CollectorFault::Held =>
                "this replica's result is held already; nothing needs to be done",
            CollectorFault::Apart =>
                "no two replicas' results agree yet; wait for another answer, and close again",
        };
        let refusal = self.refusal();
        write!(f, "{refusal}: {words}")
    }
}

impl Error for CollectorFault {}
