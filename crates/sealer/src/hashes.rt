// SipHash-2-4 over bytes of any length.
ghost use Rattle.std.specs.Prelude.{◌≡◌, ◌+◌, ◌*◌, ◌%◌, ◌^◌, ◌<◌, ◌≤◌, length};
ghost use Rattle.sealer.specs.Siphash.{half, sip_round, low, keyed, compressed, finished, siphash};

// The four words that a message is mixed into.
#[derive(Clone, Copy)]
struct State {
    v0: u64,
    v1: u64,
    v2: u64,
    v3: u64,
}

impl State {
    fn keyed(k0: u64, k1: u64) -> State
        ensures { result ≡ keyed k0 k1 }
    {
        State {
            v0: k0 ^ 0x736f6d6570736575,
            v1: k1 ^ 0x646f72616e646f6d,
            v2: k0 ^ 0x6c7967656e657261,
            v3: k1 ^ 0x7465646279746573,
        }
    }

    // Half of a round, with the turns of v1 and of v3. It leaves v0 and v2 in each other's place, so that the other half is the same with
    // other turns.
    fn half<const V1: u32, const V3: u32>(self) -> State
        requires v1 { (0 < V1) × (V1 < 64) }
        requires v3 { (0 < V3) × (V3 < 64) }
        ensures { result ≡ half V1 V3 self }
    {
        let v0 = self.v0.wrapping_add(self.v1);
        let v2 = self.v2.wrapping_add(self.v3);
        State {
            v0: v2,
            v1: self.v1.rotate_left(V1) ^ v0,
            v2: v0.rotate_left(32),
            v3: self.v3.rotate_left(V3) ^ v2,
        }
    }

    #[tactic(auto, unfolding(crate::specs::Siphash::sip_round))]
    fn round(self) -> State
        ensures { result ≡ sip_round self }
    {
        self.half::<13, 16>().half::<17, 21>()
    }

    #[tactic(auto, unfolding(crate::specs::Siphash::compressed))]
    fn compress(mut self, word: u64) -> State
        ensures { result ≡ compressed self word }
    {
        self.v3 ^= word;
        let mut s = self.round().round();
        s.v0 ^= word;
        s
    }

    #[tactic(auto, unfolding(crate::specs::Siphash::finished))]
    fn finish(mut self) -> u64
        ensures { result ≡ finished self }
    {
        self.v2 ^= 0xff;
        let s = self.round().round().round().round();
        s.v0 ^ s.v1 ^ s.v2 ^ s.v3
    }
}

// Eight bytes as a word, low byte first.
#[tactic(auto, using(crate::proofs::Words::word_is))]
fn word(bytes: &[u8; 8]) -> u64
    ensures { result ≡ low 8 bytes.now 0 }
{
    u64::from_le_bytes(*bytes)
}

// The bytes past the last whole word, with the message's length modulo 256 in the top byte.
fn tail_word(rest: &[u8], total: usize) -> u64
    requires { length rest.now ≤ 7 }
    ensures { result ≡ low 7 rest.now 0 + total % 256 * 2 ^ 56 }
{
    let mut bytes = [0; 8];
    bytes[..rest.len()].copy_from_slice(rest);
    bytes[7] = (total % 256) as u8;
    word(&bytes)
}

// The 64-bit result for a key of sixteen bytes and a message of any length.
pub fn siphash(key: &[u8; 16], bytes: &[u8]) -> u64
    ensures { result ≡ siphash key.now bytes.now }
{
    let (keys, _) = key.as_chunks::<8>();
    let mut s = State::keyed(word(&keys[0]), word(&keys[1]));
    let (words, rest) = bytes.as_chunks::<8>();
    for next in words {
        s = s.compress(word(next));
    }
    s.compress(tail_word(rest, bytes.len())).finish()
}
