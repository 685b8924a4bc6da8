// What a replica takes, and what a primary is handed: statements under genuine seals that keep the rules together.
ghost use Rattle.std.specs.Prelude.{◌≡◌, ◌≤◌, length, IfOk};
ghost use Rattle.proof.specs.Checks.{check_packet, check_proof, check_rule};
ghost use Rattle.packet.specs.Packets.{seen};
ghost use Rattle.proof.specs.Laws.{FeedsAgreement, PacketsKeep, ProofsKeep, RestAlike};

use super::certificates::Choice;
use super::reports::rule;
use packet::{Kind, Packet, Reader};
use refusal::ProofFault;
use sealer::{Sealer, open, open_proof};

#[tactic(auto, using(crate::proofs::Shifted::backing_behind, crate::proofs::Shifted::backing_none))]
fn check_rule(packet: &Packet<'_>) -> Result<(), ProofFault>
    ensures { result ≡ check_rule packet.now.first packet.now.parts.bytes.now }
{
    let choice = Choice::from(&packet.first);
    let parts = packet.parts.bytes;
    match packet.first.kind {
        // A packet that was read has its order in front.
        Kind::Order => match parts {
            [_, behind @ ..] => choice.check_backing(behind),
            [] => Err(ProofFault::Rule),
        },
        Kind::Commit => rule(parts.len() == 1 || choice.is_decided(parts)),
        Kind::Prepare | Kind::Report | Kind::Wish | Kind::Checkpoint | Kind::Answer => Ok(()),
    }
}

// The packet in these bytes, if a replica takes such a packet, every seal in it is genuine, and it keeps the rule of its kind.
#[tactic(auto, using(crate::proofs::Kept::packets_keep, crate::proofs::Feeding::feeds_agreement), unfolding(crate::specs::Checks::check_packet))]
pub fn check_packet<'a, S: Sealer>(sealer: &S, bytes: &'a [u8]) -> Result<Packet<'a>, ProofFault>
    ensures exact { seen result ≡ check_packet (S.genuine sealer.now) bytes.now }
    ensures few { IfOk result (λ p. length p.parts.bytes.now ≤ 13) }
    ensures law { PacketsKeep (S.genuine sealer.now) }
    ensures agreement { FeedsAgreement }
{
    let packet = open(sealer, Reader::Replica, bytes)?;
    check_rule(&packet)?;
    Ok(packet)
}

// Checks that these bytes are a proof that lets the view's primary order this command for this slot.
#[tactic(auto, using(crate::proofs::Kept::proofs_keep, crate::proofs::Shifted::rest_alike), unfolding(crate::specs::Checks::check_proof))]
pub fn check_proof<S: Sealer>(sealer: &S, choice: Choice, bytes: &[u8]) -> Result<(), ProofFault>
    ensures exact { result ≡ check_proof (S.genuine sealer.now) choice.view.0 choice.slot.0 choice.command bytes.now }
    ensures law { ProofsKeep (S.genuine sealer.now) }
    ensures alike { RestAlike }
{
    let proof = open_proof(sealer, bytes)?;
    choice.check_backing(proof.bytes)
}
