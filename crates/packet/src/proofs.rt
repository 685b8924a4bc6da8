// A proof: the statements that a primary is handed to show that it may order, read over the lent bytes.
ghost use Rattle.std.specs.Prelude.{◌≡◌, ◌≤◌, length, IfOk};
ghost use Rattle.packet.specs.Proofs.{OneProof, has_proof_length, read_proof, seen_proof};

use super::parts::Parts;
use refusal::PacketFault;

fn is_proof_length(length: usize) -> bool
    ensures { result ≡ has_proof_length length }
{
    matches!(length, 0 | 90 | 180 | 270 | 360)
}

// The statements in these bytes, or the first reason to refuse them.
#[tactic(auto, using(crate::proofs::Runs::one_proof, crate::proofs::Runs::proof_length), unfolding(crate::specs::Proofs::read_proof))]
pub fn read_proof(bytes: &[u8]) -> Result<Parts<'_>, PacketFault>
    ensures exact { seen_proof result ≡ read_proof bytes.now }
    ensures few { IfOk result (λ p. length p.bytes.now ≤ 12) }
    ensures law { OneProof }
{
    if !is_proof_length(bytes.len()) {
        return Err(PacketFault::Length);
    }
    let (bytes, _) = bytes.as_chunks::<30>();
    let proof = Parts { bytes };
    proof.check_from(0)?;
    Ok(proof)
}
