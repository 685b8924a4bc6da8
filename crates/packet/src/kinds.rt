// The seven kinds of statement.
ghost use Rattle.std.specs.Prelude.{◌≡◌, ◌++◌, Some, codes};
ghost use Rattle.std.specs.Fmt.{decimal};
ghost use Rattle.packet.specs.Kinds.{byte_of, kind_named};

use std::error::Error;
use std::fmt;

#[derive(Clone, Copy, PartialEq, Eq, Debug)]
pub enum Kind {
    Order = 0x4F,
    Prepare = 0x50,
    Commit = 0x43,
    Report = 0x52,
    Wish = 0x57,
    Checkpoint = 0x4B,
    Answer = 0x41,
}

// A byte with which no kind of statement begins.
#[derive(Clone, Copy, PartialEq, Eq, Debug)]
pub struct UnknownKind(pub u8);

impl From<Kind> for u8 {
    ghost from_gives = { λ kind byte. byte ≡ byte_of kind };

    // The byte that a statement of this kind begins with.
    fn from(kind: Kind) -> u8 {
        kind as u8
    }
}

impl TryFrom<u8> for Kind {
    type Error = UnknownKind;

    ghost try_from_gives = { λ byte r. r ≡ kind_named byte };

    // The kind that a first byte names.
    fn try_from(byte: u8) -> Result<Kind, UnknownKind> {
        match byte {
            0x4F => Ok(Kind::Order),
            0x50 => Ok(Kind::Prepare),
            0x43 => Ok(Kind::Commit),
            0x52 => Ok(Kind::Report),
            0x57 => Ok(Kind::Wish),
            0x4B => Ok(Kind::Checkpoint),
            0x41 => Ok(Kind::Answer),
            _ => Err(UnknownKind(byte)),
        }
    }
}

impl fmt::Display for UnknownKind {
    ghost output = { λ unknown. Some (codes "no kind of statement begins with the byte " ++ decimal unknown.0) };

    fn fmt<W: fmt::Write>(&self, f: &mut fmt::Formatter<W>) -> fmt::Result {
        write!(f, "no kind of statement begins with the byte {}", self.0)
    }
}

impl Error for UnknownKind {}
