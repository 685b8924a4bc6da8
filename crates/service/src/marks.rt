// How the services make their marks.
ghost use Rattle.std.specs.Prelude.{◌≡◌, ℕ, fold};
ghost use Rattle.service.specs.Marks.{mark_with};

// A part of a service's state: the mark takes in the parts one after another.
pub trait Marked {
    // The mark with the part taken in.
    ghost add_to: { ℕ → Self → ℕ };

    fn add_to(&self, mark: u64) -> u64
        ensures { result ≡ add_to mark self.now };
}

// A part that is one number.
impl Marked for u8 {
    ghost add_to = { mark_with };

    fn add_to(&self, mark: u64) -> u64 {
        mark_with(mark, u64::from(*self))
    }
}

// The mark `mark` with one number more.
pub fn mark_with(mark: u64, number: u64) -> u64
    ensures { result ≡ mark_with mark number }
{
    mark.wrapping_mul(31).wrapping_add(number)
}

// The mark over all parts in order.
pub fn mark_of<P: Marked>(parts: &[P]) -> u64
    ensures { result ≡ fold P.add_to 0 parts.now }
{
    let mut mark = 0;
    for part in parts {
        mark = part.add_to(mark);
    }
    mark
}
