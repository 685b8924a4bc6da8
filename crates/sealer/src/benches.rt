// The tags of a closed bench, which anyone can make, and which are easy to follow by hand.
ghost use Rattle.std.specs.Prelude.{◌≡◌};
ghost use Rattle.sealer.specs.Numbers.{Made};
ghost use Rattle.sealer.specs.Sealers.{bench_tag};

use super::numbers::ReplicaNumber;
use super::tags::{TagSealer, Tags};
use refusal::SealerFault;

// Tags by the bytes alone: every replica's tag of a body is the same.
#[derive(Drop)]
pub struct BenchTags;

// The sealer of a closed bench.
pub type BenchSealer = TagSealer<BenchTags>;

impl TagSealer<BenchTags> {
    // The sealer of one replica.
    pub fn new(number: u8) -> Result<BenchSealer, SealerFault>
        ensures { Made number (λ s. s.number.value ≡ number) result }
    {
        TagSealer::with_tags(number, BenchTags)
    }
}

// The tag of a body: from 0, 31 times the tag and the next byte, modulo 2^64.
#[tactic(auto, using(crate::proofs::Steps::one_step), unfolding(crate::specs::Sealers::bench_tag))]
fn bench_tag(body: &[u8; 22]) -> u64
    ensures { result ≡ bench_tag body.now }
{
    body.iter().fold(0u64, |tag, byte| {
        tag.wrapping_mul(31).wrapping_add(u64::from(*byte))
    })
}

impl Tags for BenchTags {
    ghost tagged = { λ _ _. bench_tag };

    fn tag(&self, _signer: ReplicaNumber, body: &[u8; 22]) -> u64 {
        bench_tag(body)
    }
}
