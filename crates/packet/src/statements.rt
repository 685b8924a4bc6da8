// A statement: thirty bytes, numbers high byte first, sealed over the first 22.
ghost use Rattle.std.specs.Prelude.{◌≡◌, ◌+◌, ◌^◌, ◌<◌, ◌≤◌, true, take, drop, Some};
ghost use Rattle.packet.specs.Fields.{Fits, proper};
ghost use Rattle.packet.specs.Laws.{OneEncoding};
ghost use Rattle.packet.specs.Statements.{body, encode, decode, fields, read_at};

use super::fields::{Slot, View};
use super::kinds::Kind;
use refusal::PacketFault;

// What one replica says under its seal. As on the wire, view 0 as the earlier view names none.
#[derive(Clone, Copy, PartialEq, Eq, Debug)]
pub struct Statement {
    pub kind: Kind,
    pub signer: u8,
    pub view: View,
    pub slot: Slot,
    pub earlier: View,
    pub command: u64,
    pub seal: u64,
}

// Some of a statement's bytes, from a place on.
pub(crate) fn field<const N: usize>(bytes: &[u8; 30], at: usize) -> [u8; N]
    requires { at + N ≤ 30 }
    ensures { result ≡ take N (drop at bytes.now) }
{
    let Some(field) = bytes[at..].first_chunk::<N>() else {
        unreachable!()
    };
    *field
}

impl Statement {
    // The 22 bytes that the seal covers.
    #[tactic(auto, using(crate::proofs::Digits::four_written, crate::proofs::Digits::eight_written), unfolding(crate::specs::Statements::body))]
    pub fn body(&self) -> [u8; 22]
        ensures exact { result ≡ body self.now }
        ensures fits { Fits self.now }
    {
        fit(*self);
        let mut bytes = [0; 22];
        bytes[0] = u8::from(self.kind);
        bytes[1] = self.signer;
        bytes[2..6].copy_from_slice(&self.view.0.to_be_bytes());
        bytes[6..10].copy_from_slice(&self.slot.0.to_be_bytes());
        bytes[10..14].copy_from_slice(&self.earlier.0.to_be_bytes());
        bytes[14..22].copy_from_slice(&self.command.to_be_bytes());
        bytes
    }

    fn fields(kind: Kind, bytes: &[u8; 30]) -> Statement
        ensures { result ≡ fields kind bytes.now }
    {
        Statement {
            kind,
            signer: bytes[1],
            view: View(u32::from_be_bytes(field(bytes, 2))),
            slot: Slot(u32::from_be_bytes(field(bytes, 6))),
            earlier: View(u32::from_be_bytes(field(bytes, 10))),
            command: u64::from_be_bytes(field(bytes, 14)),
            seal: u64::from_be_bytes(field(bytes, 22)),
        }
    }

    // The thirty bytes. A proper statement is read back from them.
    #[tactic(auto, using(crate::proofs::Digits::eight_written), unfolding(crate::specs::Statements::encode, crate::specs::Statements::body))]
    pub fn write(&self) -> [u8; 30]
        ensures exact { result ≡ encode self.now }
        ensures back { proper self.now ≡ true → decode result ≡ Some self.now }
    {
        fit(*self);
        let mut bytes = [0; 30];
        bytes[0..22].copy_from_slice(&self.body());
        bytes[22..30].copy_from_slice(&self.seal.to_be_bytes());
        bytes
    }

    // The proper statement in these bytes, if they hold one.
    #[tactic(auto, using(crate::proofs::Encodings::one_encoding, crate::proofs::Encodings::undecoded, crate::proofs::Encodings::decoded), unfolding(crate::specs::Statements::decode))]
    pub fn decode(bytes: &[u8; 30]) -> Option<Statement>
        ensures exact { result ≡ decode bytes.now }
        ensures law { OneEncoding }
    {
        let kind = Kind::try_from(bytes[0]).ok()?;
        let statement = Statement::fields(kind, bytes);
        statement.is_proper().then_some(statement)
    }

    // The same for bytes that stand at a place of a packet, where anything else is refused.
    #[tactic(auto, using(crate::proofs::Encodings::one_encoding))]
    pub fn read(bytes: &[u8; 30], place: u32) -> Result<Statement, PacketFault>
        ensures exact { result ≡ read_at place bytes.now }
        ensures law { OneEncoding }
    {
        Statement::decode(bytes).ok_or(PacketFault::Statement { place })
    }
}

// A number of 32 bits fits four bytes, and one of 64 bits eight. It does nothing: it hands that fact to its callers, who have the
// statement behind a reference, and there the check does not see it.
fn fit(statement: Statement)
    ensures fits { Fits statement }
    ensures seal { statement.seal < 256 ^ 8 }
{}
