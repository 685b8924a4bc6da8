// The number of a replica, which is one of four.
ghost use Rattle.std.specs.Prelude.{◌≡◌, ◌<◌};
ghost use Rattle.sealer.specs.Numbers.{Made};

use refusal::SealerFault;

// Whoever holds one need not ask again whether there is such a replica.
#[derive(Clone, Copy)]
pub struct ReplicaNumber {
    value: u8,
    ghost known: { value < 4 },
}

impl TryFrom<u8> for ReplicaNumber {
    type Error = SealerFault;

    ghost try_from_gives = { λ value r. Made value (λ number. number.value ≡ value) r };

    fn try_from(value: u8) -> Result<ReplicaNumber, SealerFault> {
        if value > 3 {
            return Err(SealerFault::Number);
        }
        Ok(ReplicaNumber { value })
    }
}

impl ReplicaNumber {
    // The number as a byte.
    pub fn value(self) -> u8
        ensures { result ≡ self.value }
    {
        self.value
    }
}
