// A sealer whose seal is a tag of the bytes under the signer's number, whatever the tags are made by.
ghost use Rattle.std.specs.Prelude.{◌≡◌, ℕ, List};
ghost use Rattle.sealer.specs.Numbers.{Made};
ghost use Rattle.sealer.specs.Sealers.{tag_genuine};
ghost use Rattle.std.proofs.Common.{rules};

use super::numbers::ReplicaNumber;
use super::sealers::Sealer;
use refusal::SealerFault;

// What makes a group's tags. Replicas and clients of one group make the same. They are dropped with the sealer that holds them.
pub trait Tags: Drop {
    // The tag of some bytes under a replica's number.
    ghost tagged: { Self → ℕ → List ℕ → ℕ };

    fn tag(&self, signer: ReplicaNumber, body: &[u8; 22]) -> u64
        ensures { result ≡ tagged self.now signer.value body.now };
}

// One replica's sealer. What is genuine under it is the tag, and nothing else.
#[derive(Drop)]
pub struct TagSealer<T: Tags> {
    number: ReplicaNumber,
    tags: T,
}

impl<T: Tags> TagSealer<T> {
    // The sealer of one replica, with the tags of its group; a number above 3 is refused.
    pub fn with_tags(number: u8, tags: T) -> Result<TagSealer<T>, SealerFault>
        ensures { Made number (λ s. (s.number.value ≡ number) × (s.tags ≡ tags)) result }
    {
        let number = ReplicaNumber::try_from(number)?;
        Ok(TagSealer { number, tags })
    }
}

impl<T: Tags> Sealer for TagSealer<T> {
    ghost own = { λ s. s.number.value };

    ghost genuine = { λ s. tag_genuine (T.tagged s.tags) };

    ghost below = { Prim.search rules };

    fn number(&self) -> u8 {
        self.number.value()
    }

    fn seal(&mut self, body: &[u8; 22]) -> u64 {
        self.tags.tag(self.number, body)
    }

    fn check(&self, signer: u8, body: &[u8; 22], tag: u64) -> bool {
        ReplicaNumber::try_from(signer).is_ok_and(|signer| tag == self.tags.tag(signer, body))
    }
}
