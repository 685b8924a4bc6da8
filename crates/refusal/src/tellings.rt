// What a refusal tells: its number, its layer and, for some, the place of a statement.
ghost use Rattle.std.specs.Prelude.{Some};
ghost use Rattle.refusal.specs.Texts.{layer_text, refusal_text};

use std::fmt;

// The part of the core that refused.
#[derive(Clone, Copy, PartialEq, Eq, Debug)]
pub enum Layer {
    Packet,
    Sealer,
    Proof,
    Replica,
    Collector,
}

// What is shown of a fault: the number is for people, code matches on the fault itself. The place counts statements from 0, in the
// packet or in the proof that was handed in.
#[derive(Clone, Copy, PartialEq, Eq, Debug)]
pub struct Refusal {
    pub number: u8,
    pub layer: Layer,
    pub place: Option<u32>,
}

impl fmt::Display for Layer {
    ghost output = { λ layer. Some (layer_text layer) };

    fn fmt<W: fmt::Write>(&self, f: &mut fmt::Formatter<W>) -> fmt::Result {
        let name = match self {
            Layer::Packet => "packet",
            Layer::Sealer => "sealer",
            Layer::Proof => "proof",
            Layer::Replica => "replica",
            Layer::Collector => "collector",
        };
        f.write_str(name)
    }
}

impl fmt::Display for Refusal {
    ghost output = { λ refusal. Some (refusal_text refusal) };

    fn fmt<W: fmt::Write>(&self, f: &mut fmt::Formatter<W>) -> fmt::Result {
        let number = self.number;
        let layer = self.layer;
        match self.place {
            Some(place) => write!(f, "refusal {number} ({layer}, statement {place})"),
            None => write!(f, "refusal {number} ({layer})"),
        }
    }
}
