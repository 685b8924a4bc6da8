// Why the statements of a packet, or of a proof, do not stand together.
ghost use Rattle.std.specs.Prelude.{◌≡◌};
ghost use Rattle.refusal.specs.Refusals.{of_proof, proof_from_sealer};

use crate::sealers::SealerFault;
use crate::tellings::{Layer, Refusal};
use std::error::Error;
use std::fmt;

#[derive(Clone, Copy, PartialEq, Eq, Debug)]
pub enum ProofFault {
    // The bytes are no statements under genuine seals.
    Sealer(SealerFault),
    // A rule of an order, a report, a proof or a certificate is broken.
    Rule,
}

impl From<SealerFault> for ProofFault {
    ghost from_gives = { λ e r. r ≡ proof_from_sealer e };

    fn from(lower: SealerFault) -> ProofFault {
        ProofFault::Sealer(lower)
    }
}

impl ProofFault {
    pub fn refusal(self) -> Refusal
        ensures { result ≡ of_proof self }
    {
        match self {
            ProofFault::Sealer(fault) => fault.refusal(),
            ProofFault::Rule => Refusal {
                number: 6,
                layer: Layer::Proof,
                place: None,
            },
        }
    }
}

impl fmt::Display for ProofFault {
    fn fmt<W: fmt::Write>(&self, f: &mut fmt::Formatter<W>) -> fmt::Result {
        let words = match self {
            ProofFault::Sealer(fault) => return write!(f, "{fault}"),
            ProofFault::Rule =>
                "the statements do not stand together as an order, a proof or a certificate; whoever put them together is at fault, gather the reports or the commits anew",
        };
        let refusal = self.refusal();
        write!(f, "{refusal}: {words}")
    }
}

impl Error for ProofFault {}
