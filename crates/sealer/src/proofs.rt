// Opening a proof: its statements, each under a genuine seal.
ghost use Rattle.std.specs.Prelude.{◌≡◌, ◌≤◌, length, IfOk};
ghost use Rattle.packet.specs.Proofs.{seen_proof};
ghost use Rattle.sealer.specs.Proofs.{OneProofOpening, open_proof};

use super::sealers::{Sealer, check_seals};
use packet::{Parts, read_proof};
use refusal::SealerFault;

// The statements in these bytes, if they have a proof's length, each is proper, and every seal in them is genuine.
#[tactic(auto, using(crate::proofs::Runs::one_proof_opening), unfolding(crate::specs::Proofs::open_proof))]
pub fn open_proof<'a, S: Sealer>(sealer: &S, bytes: &'a [u8]) -> Result<Parts<'a>, SealerFault>
    ensures exact { seen_proof result ≡ open_proof (S.genuine sealer.now) bytes.now }
    ensures few { IfOk result (λ p. length p.bytes.now ≤ 12) }
    ensures law { OneProofOpening (S.genuine sealer.now) }
{
    let proof = read_proof(bytes)?;
    check_seals(sealer, &proof)?;
    Ok(proof)
}
