// What a sealer is, and what any sealer serves for: to sign a statement, and to open a packet.
ghost use Rattle.std.specs.Prelude.{◌≡◌, ℕ, ◌^◌, ◌<◌, ◌≤◌, true, length, IfOk};
ghost use Rattle.packet.specs.Packets.{seen};
ghost use Rattle.sealer.specs.Laws.{OneOpening, Opening};
ghost use Rattle.sealer.specs.Seals.{Meaning, Signed, check_seals, open_packet};

use packet::{Packet, Parts, Reader, Sealed, Statement, read_packet};
use refusal::SealerFault;

// One replica's end of the group's seals. Its meaning is which signer, 22 bytes and tag are genuine.
pub trait Sealer {
    ghost own: { Self → ℕ };

    ghost genuine: { Self → Meaning };

    // The number of the replica that it seals for.
    fn number(&self) -> u8
        ensures { result ≡ own self.now };

    // A tag for these bytes, genuine under the own number. Number and meaning stay.
    fn seal(&mut self, body: &[u8; 22]) -> u64
        ensures sealed { genuine self.old (own self.old) body.now result ≡ true }
        ensures number { own self.new ≡ own self.old }
        ensures meaning { genuine self.new ≡ genuine self.old };

    // Whether the tag is genuine for this signer and these bytes.
    fn check(&self, signer: u8, body: &[u8; 22], tag: u64) -> bool
        ensures { result ≡ genuine self.now signer body.now tag };

    ghost below: { (s : Self) → own s < 4 };
}

// The statement under the sealer's own number, sealed.
#[tactic(auto, unfolding(packet::specs::Statements::body))]
pub fn sign<S: Sealer>(sealer: &mut S, statement: Statement) -> Statement
    ensures signed { Signed (S.genuine sealer.old) (S.own sealer.old) statement result }
    ensures number { S.own sealer.new ≡ S.own sealer.old }
    ensures meaning { S.genuine sealer.new ≡ S.genuine sealer.old }
{
    let signed = Statement {
        signer: sealer.number(),
        ..statement
    };
    Statement {
        seal: sealer.seal(&signed.body()),
        ..signed
    }
}

// Checks every seal, and refuses the first that is not genuine. `Parts::check_from` walks alike: one walk for both would be a public
// function that requires something of its closure.
pub(crate) fn check_seals<S: Sealer>(sealer: &S, parts: &Parts<'_>) -> Result<(), SealerFault>
    requires { length parts.now.bytes.now < 2 ^ 32 }
    ensures { result ≡ check_seals (S.genuine sealer.now) 0 parts.now.bytes.now }
{
    for (i, part) in parts.bytes.iter().enumerate() {
        let part = Sealed::from(part);
        if !sealer.check(part.signer, part.body, part.seal) {
            return Err(SealerFault::Seal { place: i as u32 });
        }
    }
    Ok(())
}

// The packet in these bytes, if it is one for this reader and every seal in it is genuine.
#[tactic(auto, using(crate::proofs::Openings::one_opening, crate::proofs::Openings::opening), unfolding(crate::specs::Seals::open_packet))]
pub fn open<'a, S: Sealer>(
    sealer: &S,
    reader: Reader,
    bytes: &'a [u8],
) -> Result<Packet<'a>, SealerFault>
    ensures exact { seen result ≡ open_packet (S.genuine sealer.now) reader bytes.now }
    ensures opening { Opening (S.genuine sealer.now) reader bytes.now result }
    ensures few { IfOk result (λ p. length p.parts.bytes.now ≤ 13) }
    ensures law { OneOpening (S.genuine sealer.now) }
{
    let packet = read_packet(reader, bytes)?;
    check_seals(sealer, &packet.parts)?;
    Ok(packet)
}
