// Commands that a service does not know.
ghost use Rattle.std.specs.Prelude.{Some};
ghost use Rattle.service.specs.Commands.{unknown_text};

use std::error::Error;
use std::fmt;

// A command that asks for nothing that the service does.
#[derive(Clone, Copy, PartialEq, Eq, Debug)]
pub struct UnknownCommand(pub u64);

impl fmt::Display for UnknownCommand {
    ghost output = { λ unknown. Some (unknown_text unknown.0) };

    #[tactic(auto, using(crate::proofs::Texts::in_sixteen))]
    fn fmt<W: fmt::Write>(&self, f: &mut fmt::Formatter<W>) -> fmt::Result {
        write!(
            f,
            "the service has no command 0x{:016x}: the client wrote it wrongly, or meant another service",
            self.0
        )
    }
}

impl Error for UnknownCommand {}
