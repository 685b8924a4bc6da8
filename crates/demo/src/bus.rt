// The group's keys, and answers as they go over the bus.
use packet::{Kind, Slot, Statement, View};
use refusal::SealerFault;
use sealer::{SipSealer, sign};

// One key for each replica; all replicas and clients of a group hold the four.
pub const KEYS: [[u8; 16]; 4] = [[0xA0; 16], [0xA1; 16], [0xA2; 16], [0xA3; 16]];

// The keys of another group.
pub const OTHER_KEYS: [[u8; 16]; 4] = [[0xB0; 16], [0xB1; 16], [0xB2; 16], [0xB3; 16]];

// What a replica answers for a slot.
#[derive(Clone, Copy)]
pub struct Answer {
    pub replica: u8,
    pub slot: Slot,
    pub outcome: u64,
}

impl Answer {
    // The bytes of the answer, sealed under these keys.
    pub fn sealed(self, keys: [[u8; 16]; 4]) -> Result<[u8; 30], SealerFault> {
        let mut sealer = SipSealer::new(self.replica, keys)?;
        let unsealed = Statement {
            kind: Kind::Answer,
            signer: 0,
            view: View(0),
            slot: self.slot,
            earlier: View(0),
            command: self.outcome,
            seal: 0,
        };
        Ok(sign(&mut sealer, unsealed).write())
    }
}
