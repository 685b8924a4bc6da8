// The lent bytes of a packet's or a proof's statements.
ghost use Rattle.std.specs.Prelude.{◌≡◌, ◌^◌, ◌<◌, ◌≤◌, length, drop};
ghost use Rattle.packet.specs.Parts.{check_statements, statement_at};

use super::statements::Statement;
use refusal::PacketFault;

// Pieces of thirty bytes, as many as there are. `read_packet` and `read_proof` give them out only if each is a statement.
#[derive(Clone, Copy)]
pub struct Parts<'a> {
    pub bytes: &'a [[u8; 30]],
}

impl<'a> From<&'a [[u8; 30]]> for Parts<'a> {
    ghost from_gives = { λ bytes parts. parts.bytes.now ≡ bytes.now };

    // Any pieces, however many: nothing is said of what stands in them.
    fn from(bytes: &'a [[u8; 30]]) -> Parts<'a> {
        Parts { bytes }
    }
}

impl Parts<'_> {
    // How many parts there are.
    pub fn count(&self) -> usize
        ensures { result ≡ length self.now.bytes.now }
    {
        self.bytes.len()
    }

    // The statement at a place, counted from 0; none past the last part.
    #[tactic(auto, using(std::proofs::lemmas::List::get_or_past), unfolding(crate::specs::Statements::decode))]
    pub fn statement(&self, place: usize) -> Option<Statement>
        ensures { result ≡ statement_at self.now.bytes.now place }
    {
        Statement::decode(self.bytes.get(place)?)
    }

    // Reads the statements from a place on, and refuses the first that is none. A refusal has a `u32` for the place.
    pub(crate) fn check_from(&self, first: usize) -> Result<(), PacketFault>
        requires { (first ≤ length self.now.bytes.now) × (length self.now.bytes.now < 2 ^ 32) }
        ensures { result ≡ check_statements first (drop first self.now.bytes.now) }
    {
        for (i, part) in self.bytes[first..].iter().enumerate() {
            Statement::read(part, (first + i) as u32)?;
        }
        Ok(())
    }
}
