// The tags of a group in the field: SipHash-2-4 under one key of sixteen bytes for each replica.
ghost use Rattle.std.specs.Prelude.{◌≡◌};
ghost use Rattle.sealer.specs.Numbers.{Made};
ghost use Rattle.sealer.specs.Sealers.{sip_tag};

use super::hashes::siphash;
use super::numbers::ReplicaNumber;
use super::tags::{TagSealer, Tags};
use refusal::SealerFault;

// The four keys of a group, by replica.
#[derive(Drop)]
pub struct SipTags {
    keys: [[u8; 16]; 4],
}

// The sealer of a group in the field.
pub type SipSealer = TagSealer<SipTags>;

impl TagSealer<SipTags> {
    // The sealer of one replica. All of a group, and its clients, hold the same four keys.
    pub fn new(number: u8, keys: [[u8; 16]; 4]) -> Result<SipSealer, SealerFault>
        ensures { Made number (λ s. (s.number.value ≡ number) × (s.tags.keys ≡ keys)) result }
    {
        TagSealer::with_tags(number, SipTags { keys })
    }
}

impl Tags for SipTags {
    ghost tagged = { λ t. sip_tag t.keys };

    fn tag(&self, signer: ReplicaNumber, body: &[u8; 22]) -> u64 {
        siphash(&self.keys[usize::from(signer.value())], body)
    }
}
