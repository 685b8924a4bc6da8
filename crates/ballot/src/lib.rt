// Counting equal ballots, once for every kind of ballot.
//
// A row of places that a replica keeps is flat, so that a C or C++ program can hold it in its own memory: a place there has a
// flag beside its values (`MarkBallot`) and not an `Option` around them. Counting asks each place, whatever its form.
#![tactic(auto)]

ghost use Rattle.std.specs.Prelude.{◌≡◌, Option, Some, map};
ghost use Rattle.std.specs.Option.{option_eq};
ghost use Rattle.ballot.specs.Counting.{count_of, Counting};

mod marks;

pub use marks::{Mark, MarkBallot, count_marks};

// A place for a ballot, in the form in which it is kept.
pub trait Place<B: Eq> {
    // The ballot that stands in the place.
    ghost held: { Self → Option B };

    // Whether a ballot equal to `like` stands in the place.
    fn holds(&self, like: &B) -> bool
        ensures { result ≡ option_eq B.eq (held self.now) (Some like.now) };
}

impl<B: Eq> Place<B> for Option<B> {
    ghost held = { λ place. place };

    fn holds(&self, like: &B) -> bool {
        self.as_ref() == Some(like)
    }
}

// How many places of a row hold a ballot equal to `like`, whatever the form of the places.
pub fn count_places<B: Eq, P: Place<B>>(row: &[P], like: &B) -> usize
    ensures value { result ≡ count_of B.eq (map P.held row.now) like.now }
    ensures laws { Counting B.eq }
{
    row.iter().filter(|place| place.holds(like)).count()
}

// How many places hold a ballot equal to `like`. An empty place counts nothing, and `like` itself
// counts only where it stands in a place.
pub fn count<B: Eq>(places: &[Option<B>], like: &B) -> usize
    ensures value { result ≡ count_of B.eq places.now like.now }
    ensures laws { Counting B.eq }
{
    count_places(places, like)
}
