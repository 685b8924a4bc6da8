// The rules of orders, reports and certificates: who plays which part in a view, and what the statements of a packet, or of
// a proof that is handed to a primary, have to say together.
#![tactic(auto)]

mod certificates;
mod checks;
mod reports;
mod roles;

pub use certificates::Choice;
pub use checks::{check_packet, check_proof};
pub use roles::{active, backups, primary, spare};
