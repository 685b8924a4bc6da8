// Services, which carry out commands one after another, the same way wherever they run.
//
// A command is eight bytes, and so is the answer to it; both are passed as a `u64`, high byte
// first.
#![tactic(auto)]

mod bookings;
mod commands;
mod marks;
mod recorders;
mod services;

pub use bookings::{Booking, Request};
pub use commands::UnknownCommand;
pub use recorders::{Channel, Recorder, Sample};
pub use services::{Service, apply_all};

// The answer to a command that a service does not carry out. It is a number, since answers go over the bus as eight bytes.
pub const REFUSED: u64 = u64::MAX;
