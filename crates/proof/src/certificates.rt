// Certificates: what a view's active replicas said of one slot and one command.
ghost use Rattle.std.specs.Prelude.{◌≡◌, ◌≤◌, true, length};
ghost use Rattle.packet.specs.Statements.{decode};
ghost use Rattle.proof.specs.Certificates.{says, each_says, prepared, decided};
ghost use Rattle.proof.specs.Choices.{choice_of};

use super::roles::{active, backups, primary};
use packet::{Kind, Slot, Statement, View};

// What an order is for, and the votes of a certificate: a command for a slot in a view. The definitions take the three as numbers, as
// the law of agreement does.
#[derive(Clone, Copy, PartialEq, Eq, Debug)]
pub struct Choice {
    pub view: View,
    pub slot: Slot,
    pub command: u64,
}

impl From<&Statement> for Choice {
    ghost from_gives = { λ statement r. r ≡ choice_of statement.now };

    fn from(statement: &Statement) -> Choice {
        Choice {
            view: statement.view,
            slot: statement.slot,
            command: statement.command,
        }
    }
}

impl Choice {
    // Whether a part is a statement of this kind by this signer, for this choice.
    #[tactic(auto, unfolding(crate::specs::Certificates::says))]
    fn is_said(self, kind: Kind, signer: u8, part: &[u8; 30]) -> bool
        ensures { result ≡ says kind signer self.view.0 self.slot.0 self.command (decode part.now) }
    {
        let Some(said) = Statement::decode(part) else {
            return false;
        };
        said.kind == kind && said.signer == signer && Choice::from(&said) == self
    }

    // Whether these signers say so one after another, from the first part on.
    fn is_said_by_each(self, kind: Kind, signers: &[u8], parts: &[[u8; 30]]) -> bool
        ensures exact { result ≡ each_says kind self.view.0 self.slot.0 self.command parts.now 0 signers.now }
        ensures there { result ≡ true → length signers.now ≤ length parts.now }
    {
        let enough = signers.len() <= parts.len();
        enough
            && signers
                .iter()
                .zip(parts)
                .all(|(signer, part)| self.is_said(kind, *signer, part))
    }

    // Whether the parts begin with the certificate of a prepared slot.
    #[tactic(auto, using(crate::proofs::Shifted::prepared_front, crate::proofs::Shifted::prepared_none, crate::proofs::Actives::backups_two))]
    pub(crate) fn is_prepared(self, parts: &[[u8; 30]]) -> bool
        ensures exact { result ≡ prepared self.view.0 self.slot.0 self.command parts.now 0 }
        ensures there { result ≡ true → 3 ≤ length parts.now }
    {
        let [order, prepares @ ..] = parts else {
            return false;
        };
        self.is_said(Kind::Order, primary(self.view), order)
            && self.is_said_by_each(Kind::Prepare, &backups(self.view), prepares)
    }

    // Whether the parts begin with the certificate of a decision.
    pub(crate) fn is_decided(self, parts: &[[u8; 30]]) -> bool
        ensures { result ≡ decided self.view.0 self.slot.0 self.command parts.now }
    {
        self.is_said_by_each(Kind::Commit, &active(self.view), parts)
    }
}
