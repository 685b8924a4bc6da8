// Why a sealer is not made, or a packet not opened.
ghost use Rattle.std.specs.Prelude.{◌≡◌};
ghost use Rattle.refusal.specs.Refusals.{from_packet, of_sealer};

use crate::packets::PacketFault;
use crate::tellings::{Layer, Refusal};
use std::error::Error;
use std::fmt;

#[derive(Clone, Copy, PartialEq, Eq, Debug)]
pub enum SealerFault {
    // The bytes are no packet for this reader.
    Packet(PacketFault),
    // A sealer's number is none of 0 to 3.
    Number,
    // The statement at this place is the first whose seal is not genuine.
    Seal { place: u32 },
}

impl From<PacketFault> for SealerFault {
    ghost from_gives = { λ e r. r ≡ from_packet e };

    fn from(lower: PacketFault) -> SealerFault {
        SealerFault::Packet(lower)
    }
}

impl SealerFault {
    pub fn refusal(self) -> Refusal
        ensures { result ≡ of_sealer self }
    {
        match self {
            SealerFault::Packet(fault) => fault.refusal(),
            SealerFault::Number => Refusal {
                number: 4,
                layer: Layer::Packet,
                place: Some(0),
            },
            SealerFault::Seal { place } => Refusal {
                number: 5,
                layer: Layer::Sealer,
                place: Some(place),
            },
        }
    }
}

impl fmt::Display for SealerFault {
    fn fmt<W: fmt::Write>(&self, f: &mut fmt::Formatter<W>) -> fmt::Result {
        let words = match self {
            SealerFault::Packet(fault) => return write!(f, "{fault}"),
            SealerFault::Number =>
                "a sealer's number is 0 to 3; give it the number of one of the four replicas",
            SealerFault::Seal { .. } =>
                "the seal is not genuine under the signer's number; the bytes were changed, or the keys differ",
        };
        let refusal = self.refusal();
        write!(f, "{refusal}: {words}")
    }
}

impl Error for SealerFault {}
