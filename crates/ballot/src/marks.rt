// Marks of a service's state, each with the slot after which it was read.
ghost use Rattle.std.specs.Prelude.{◌≡◌, map};
ghost use Rattle.ballot.specs.Counting.{Counting, count_of};
ghost use Rattle.ballot.specs.Marks.{held_mark, same_mark};

use crate::{Place, count_places};
use packet::Slot;

// The mark of a state, with the slot after which it was read. Two marks of unlike slots are of two states, and say nothing of
// each other even if the numbers are equal.
#[derive(Clone, Copy, PartialEq, Eq, Debug)]
pub struct Mark {
    pub slot: Slot,
    pub mark: u64,
}

// A signer's place for its mark. It is flat, with no enum and no `Option` in it, so that a C++ host can hold a replica's state in
// its own memory.
#[repr(C)]
#[derive(Clone, Copy)]
pub struct MarkBallot {
    pub held: bool,
    pub slot: Slot,
    pub mark: u64,
}

impl MarkBallot {
    // The mark that the place holds.
    pub fn held_mark(self) -> Option<Mark>
        ensures { result ≡ held_mark self }
    {
        self.held.then_some(Mark {
            slot: self.slot,
            mark: self.mark,
        })
    }
}

impl Place<Mark> for MarkBallot {
    ghost held = { held_mark };

    fn holds(&self, like: &Mark) -> bool {
        self.held && self.slot == like.slot && self.mark == like.mark
    }
}

// How many places of a row hold this mark.
pub fn count_marks(row: &[MarkBallot], mark: &Mark) -> usize
    ensures value { result ≡ count_of same_mark (map held_mark row.now) mark.now }
    ensures laws { Counting same_mark }
{
    count_places(row, mark)
}
