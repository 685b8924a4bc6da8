// The booking service: thirty-two places that are booked and freed.
ghost use Rattle.std.specs.Prelude.{◌≡◌, ◌<◌, ◌==◌, slice_index};
ghost use Rattle.service.specs.Bookings.{BookingLaws, Holders, booking_mark, booking_next, booking_result, first_holders, holder_at, passed, request_of};
ghost use Rattle.service.specs.Commands.{read_as};

use crate::REFUSED;
use crate::commands::UnknownCommand;
use crate::marks::mark_of;
use crate::services::Service;

// The first byte of a command that books a place.
const BOOK: u8 = 0x42;

// The first byte of a command that frees a place.
const FREE: u8 = 0x46;

// The holder of a free place. A host keeps the holders as bytes, so it is a byte too, and no `None`.
const NOBODY: u8 = 0;

// What a command asks for.
#[derive(Clone, Copy, PartialEq, Eq, Debug)]
pub enum Request {
    Book { place: u8, holder: u8 },
    Free { place: u8, holder: u8 },
}

impl TryFrom<u64> for Request {
    type Error = UnknownCommand;

    ghost try_from_gives = { λ command r. r ≡ read_as request_of command };

    fn try_from(command: u64) -> Result<Request, UnknownCommand> {
        // One arm for both kinds would need a second match on the kind.
        match command.to_be_bytes() {
            [BOOK, place @ 0..=31, holder @ 1..=255, 0, 0, 0, 0, 0] => {
                Ok(Request::Book { place, holder })
            }
            [FREE, place @ 0..=31, holder @ 1..=255, 0, 0, 0, 0, 0] => {
                Ok(Request::Free { place, holder })
            }
            _ => Err(UnknownCommand(command)),
        }
    }
}

// The state of a booking service is the holder of each place, in order, where 0 is nobody.
#[repr(C)]
#[derive(Drop)]
pub struct Booking {
    holders: [u8; 32],
}

impl Booking {
    // A booking service whose places are all free.
    #[tactic(auto, using(crate::proofs::Places::booking_laws))]
    pub fn new() -> Booking
        ensures value { result.holders ≡ first_holders }
        ensures laws { BookingLaws }
    {
        Booking {
            holders: [NOBODY; 32],
        }
    }

    // A booking service in the state that a host kept. The recorder has the like, in its own words: what they share is one line each.
    pub fn with_holders(holders: [u8; 32]) -> Booking
        ensures { result.holders ≡ holders }
    {
        Booking { holders }
    }

    // The holder of this place, 0 where it is free, or none past the last place.
    pub fn holder(&self, place: u8) -> Option<u8>
        ensures { result ≡ holder_at self.now.holders place }
    {
        self.holders.get(usize::from(place)).copied()
    }

    // Gives a place from one holder to another, if that one holds it, and answers whether it did.
    fn pass(&mut self, place: u8, from: u8, to: u8) -> bool
        requires { place < 32 }
        ensures value { result ≡ (slice_index self.old.holders place == from) }
        ensures after { self.new.holders ≡ (passed self.old.holders place from to).after }
    {
        let holder = &mut self.holders[usize::from(place)];
        if *holder != from {
            return false;
        }
        *holder = to;
        true
    }
}

impl Service for Booking {
    ghost State = { Holders };

    ghost state = { λ s. s.holders };

    ghost answer = { booking_result };

    ghost next = { booking_next };

    ghost marked = { booking_mark };

    fn apply(&mut self, command: u64) -> u64 {
        let done = match Request::try_from(command) {
            Ok(Request::Book { place, holder }) => self.pass(place, NOBODY, holder),
            Ok(Request::Free { place, holder }) => self.pass(place, holder, NOBODY),
            Err(_) => return REFUSED,
        };
        u64::from(done)
    }

    fn mark(&self) -> u64 {
        mark_of(&self.holders)
    }
}
