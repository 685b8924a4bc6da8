// Why bytes are no packet for their reader.
ghost use Rattle.std.specs.Prelude.{◌≡◌};
ghost use Rattle.refusal.specs.Refusals.{of_packet};

use crate::tellings::{Layer, Refusal};
use std::error::Error;
use std::fmt;

#[derive(Clone, Copy, PartialEq, Eq, Debug)]
pub enum PacketFault {
    // The packet is empty, or its first byte is no kind that the reader takes.
    Unexpected,
    // The length is none of those that the first kind has.
    Length,
    // The statement at this place is the first that breaks a rule of its fields.
    Statement { place: u32 },
}

impl PacketFault {
    pub fn refusal(self) -> Refusal
        ensures { result ≡ of_packet self }
    {
        let layer = Layer::Packet;
        match self {
            PacketFault::Unexpected => Refusal {
                number: 2,
                layer,
                place: None,
            },
            PacketFault::Length => Refusal {
                number: 3,
                layer,
                place: None,
            },
            PacketFault::Statement { place } => Refusal {
                number: 4,
                layer,
                place: Some(place),
            },
        }
    }
}

impl fmt::Display for PacketFault {
    fn fmt<W: fmt::Write>(&self, f: &mut fmt::Formatter<W>) -> fmt::Result {
        let refusal = self.refusal();
        let words = match self {
            PacketFault::Unexpected =>
                "the packet is empty, or its first byte is no kind that is taken here; hand it to the call that takes its kind",
            PacketFault::Length =>
                "the packet has a length that its kind does not have; bytes were lost or added, have it sent again",
            PacketFault::Statement { .. } =>
                "a field of this statement breaks the rule of its kind; it was damaged, or its sender is at fault",
        };
        write!(f, "{refusal}: {words}")
    }
}

impl Error for PacketFault {}
