// A packet: one or more whole statements, read over the lent bytes.
ghost use Rattle.std.specs.Prelude.{◌≡◌, ◌^◌, ◌<◌, length};
ghost use Rattle.packet.specs.Laws.{OnePacket, Reading};
ghost use Rattle.packet.specs.Packets.{takes, has_length, first_kind, read_parts, read_packet, sealed_part, seen, seen_sealed};

use super::kinds::Kind;
use super::parts::Parts;
use super::statements::{Statement, field};
use refusal::PacketFault;

// Who reads a packet, and so which kinds it may begin with.
#[derive(Clone, Copy)]
pub enum Reader {
    // A replica's call to take a packet.
    Replica,
    // A client that collects answers.
    Collector,
    // A monitor on the bus, which reads whatever is sent.
    Monitor,
}

impl Reader {
    // Whether a packet for this reader may begin with this kind.
    pub fn takes(self, kind: Kind) -> bool
        ensures { result ≡ takes self kind }
    {
        match self {
            Reader::Replica => !matches!(kind, Kind::Report | Kind::Answer),
            Reader::Collector => matches!(kind, Kind::Answer),
            Reader::Monitor => true,
        }
    }

    fn first_kind(self, bytes: &[u8]) -> Result<Kind, PacketFault>
        ensures { result ≡ first_kind self bytes.now }
    {
        let first = bytes.first().ok_or(PacketFault::Unexpected)?;
        match Kind::try_from(*first) {
            Ok(kind) if self.takes(kind) => Ok(kind),
            _ => Err(PacketFault::Unexpected),
        }
    }
}

impl Kind {
    // Whether a packet that begins with this kind may have this many bytes.
    pub fn has_length(self, length: usize) -> bool
        ensures { result ≡ has_length self length }
    {
        match self {
            Kind::Order => matches!(length, 30 | 120 | 210 | 300 | 390),
            Kind::Commit => matches!(length, 30 | 90),
            Kind::Report => matches!(length, 30 | 120),
            Kind::Prepare | Kind::Wish | Kind::Checkpoint | Kind::Answer => length == 30,
        }
    }
}

// What a seal vouches for, lent from the bytes of a statement: who signed, the 22 bytes, and the seal.
#[derive(Clone, Copy)]
pub struct Sealed<'a> {
    pub signer: u8,
    pub body: &'a [u8; 22],
    pub seal: u64,
}

impl<'a> From<&'a [u8; 30]> for Sealed<'a> {
    ghost from_gives = { λ part r. seen_sealed r ≡ sealed_part part.now };

    fn from(part: &'a [u8; 30]) -> Sealed<'a> {
        let Some(body) = part.first_chunk::<22>() else {
            unreachable!()
        };
        Sealed {
            signer: part[1],
            body,
            seal: u64::from_be_bytes(field(part, 22)),
        }
    }
}

// A packet that was read: its first statement, and the lent bytes of each.
#[derive(Clone, Copy)]
pub struct Packet<'a> {
    pub first: Statement,
    pub parts: Parts<'a>,
}

fn read_parts(parts: Parts<'_>) -> Result<Packet<'_>, PacketFault>
    requires { (0 < length parts.bytes.now) × (length parts.bytes.now < 2 ^ 32) }
    ensures { seen result ≡ read_parts parts.entry.bytes.now }
{
    let first = Statement::read(&parts.bytes[0], 0)?;
    parts.check_from(1)?;
    Ok(Packet { first, parts })
}

// The packet in these bytes, or the first reason to refuse it.
#[tactic(auto, using(crate::proofs::Readings::one_packet, crate::proofs::Readings::reading), unfolding(crate::specs::Packets::read_packet))]
pub fn read_packet(reader: Reader, bytes: &[u8]) -> Result<Packet<'_>, PacketFault>
    ensures exact { seen result ≡ read_packet reader bytes.now }
    ensures reading { Reading reader bytes.now result }
    ensures law { OnePacket }
{
    let kind = reader.first_kind(bytes)?;
    if !kind.has_length(bytes.len()) {
        return Err(PacketFault::Length);
    }
    let (bytes, _) = bytes.as_chunks::<30>();
    read_parts(Parts { bytes })
}
