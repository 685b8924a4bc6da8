// The fields of a statement: views and slots as two types, so that neither is taken for the other, and the rule that
// each kind has for its fields.
ghost use Rattle.std.specs.Prelude.{◌≡◌};
ghost use Rattle.packet.specs.Fields.{valid, proper};

use super::kinds::Kind;
use super::statements::Statement;

// A view: the time of one primary and one spare. Views are numbered from 1; 0 stands for no view.
#[repr(C)]
#[derive(Clone, Copy, PartialEq, Eq, PartialOrd, Debug)]
pub struct View(pub u32);

// A slot: one place in the list of commands. Slots are numbered from 1; 0 stands for no slot.
#[repr(C)]
#[derive(Clone, Copy, PartialEq, Eq, PartialOrd, Debug)]
pub struct Slot(pub u32);

// `is_valid` is written for each of the two types: a trait over both would be longer than two lines, and every caller would
// import it.
impl View {
    // Whether there is a view of this number.
    pub fn is_valid(self) -> bool
        ensures { result ≡ valid self.0 }
    {
        valid(self.0)
    }
}

impl Slot {
    // Whether there is a slot of this number.
    pub fn is_valid(self) -> bool
        ensures { result ≡ valid self.0 }
    {
        valid(self.0)
    }
}

fn valid(n: u32) -> bool
    ensures { result ≡ valid n }
{
    1 <= n && n <= 4_000_000_000
}

impl Statement {
    // Whether every field keeps the rule that this kind has for it.
    pub fn is_proper(&self) -> bool
        ensures { result ≡ proper self.now }
    {
        self.signer <= 3
            && match self.kind {
                Kind::Order | Kind::Prepare | Kind::Commit => {
                    self.view.is_valid() && self.slot.is_valid() && self.earlier.0 == 0
                }
                Kind::Report => {
                    self.view.is_valid()
                        && self.slot.is_valid()
                        && self.earlier < self.view
                        && (self.earlier.0 != 0 || self.command == 0)
                }
                Kind::Wish => self.view.is_valid()
                    && self.slot.0 == 0
                    && self.earlier.0 == 0
                    && self.command == 0,
                Kind::Checkpoint => {
                    self.view.0 == 0
                        && self.slot.is_valid()
                        && self.slot.0 % 16 == 0
                        && self.earlier.0 == 0
                }
                Kind::Answer => self.view.0 == 0 && self.slot.is_valid() && self.earlier.0 == 0,
            }
    }
}
