// What is refused, in the order of the refusals' numbers: the first test that fails is told.
ghost use Rattle.std.specs.Prelude.{◌≡◌, ◌+◌};
ghost use Rattle.slots.specs.Checks.{verdict, like_order, like_decision, is_active, is_backup, order_tests, vote_tests, certificate_tests, part_tests, take_order, take_prepare, take_commit, take_certificate, take_wish, is_checkpoint, take_mark, take_tests, lead_tests, led_tests, leave_tests, report_tests, shown, runnable};

use super::cores::Core;
use super::records::{Certificate, Record, Votes};
use packet::{Kind, Slot, Statement, View};
use proof::{primary, spare};
use refusal::ReplicaFault;

// The last view that there is.
const LAST_VIEW: u32 = 4_000_000_000;

// All but the spare are active.
fn is_active(view: View, replica: u8) -> bool
    ensures { result ≡ is_active view.0 replica }
{
    replica != spare(view)
}

// All that are active but the primary are backups.
fn is_backup(view: View, replica: u8) -> bool
    ensures { result ≡ is_backup view.0 replica }
{
    is_active(view, replica) && replica != primary(view)
}

impl Record {
    // Whether a command is the ordered one, or nothing is ordered.
    fn is_like_order(&self, command: u64) -> bool
        ensures { result ≡ like_order self.now command }
    {
        !self.ordered || self.command == command
    }

    // Whether a command is the decided one, or nothing is decided.
    fn is_like_decision(&self, command: u64) -> bool
        ensures { result ≡ like_decision self.now command }
    {
        !self.decided.is_there() || self.decided.command == command
    }

    fn check_order(&self, command: u64) -> Result<(), ReplicaFault>
        ensures { result ≡ verdict (order_tests self.now command) }
    {
        if !self.is_like_order(command) || !self.is_like_decision(command) {
            return Err(ReplicaFault::Unlike);
        }
        if self.ordered {
            return Err(ReplicaFault::Held);
        }
        Ok(())
    }

    fn check_vote(&self, votes: &Votes, signer: u8, command: u64) -> Result<(), ReplicaFault>
        ensures { result ≡ verdict (vote_tests self.now votes.now signer command) }
    {
        if !self.ordered {
            return Err(ReplicaFault::Unordered);
        }
        if !self.is_like_order(command) || !self.is_like_decision(command) {
            return Err(ReplicaFault::Unlike);
        }
        if votes.has(signer) {
            return Err(ReplicaFault::Held);
        }
        Ok(())
    }

    fn check_certificate(&self, command: u64) -> Result<(), ReplicaFault>
        ensures { result ≡ verdict (certificate_tests self.now command) }
    {
        if !self.is_like_decision(command) {
            return Err(ReplicaFault::Unlike);
        }
        if self.decided.is_there() {
            return Err(ReplicaFault::Held);
        }
        Ok(())
    }
}

impl Core {
    // An order, a prepare or a single commit: of the own view, by another, who has the part that is asked for, at an open slot.
    fn check_part(&self, own: u8, statement: &Statement, has_part: bool) -> Result<(), ReplicaFault>
        ensures { result ≡ verdict (part_tests own self.now statement.now has_part) }
    {
        if statement.view != self.view {
            return Err(ReplicaFault::View);
        }
        if statement.signer == own || !is_active(self.view, own) || !has_part {
            return Err(ReplicaFault::Role);
        }
        if !self.is_open(statement.slot) {
            return Err(ReplicaFault::Slot);
        }
        Ok(())
    }

    fn check_order(&self, own: u8, statement: &Statement) -> Result<(), ReplicaFault>
        ensures { result ≡ verdict (take_order own self.now statement.now) }
    {
        self.check_part(own, statement, statement.signer == primary(self.view))?;
        self.record(statement.slot).check_order(statement.command)
    }

    fn check_prepare(&self, own: u8, statement: &Statement) -> Result<(), ReplicaFault>
        ensures { result ≡ verdict (take_prepare own self.now statement.now) }
    {
        self.check_part(own, statement, is_backup(self.view, statement.signer))?;
        let record = self.record(statement.slot);
        record.check_vote(&record.prepares, statement.signer, statement.command)
    }

    fn check_commit(&self, own: u8, statement: &Statement) -> Result<(), ReplicaFault>
        ensures { result ≡ verdict (take_commit own self.now statement.now) }
    {
        self.check_part(own, statement, is_active(self.view, statement.signer))?;
        let record = self.record(statement.slot);
        record.check_vote(&record.commits, statement.signer, statement.command)
    }

    fn check_certificate(&self, statement: &Statement) -> Result<(), ReplicaFault>
        ensures { result ≡ verdict (take_certificate self.now statement.now) }
    {
        if !self.is_open(statement.slot) {
            return Err(ReplicaFault::Slot);
        }
        self.record(statement.slot)
            .check_certificate(statement.command)
    }

    fn check_wish(&self, own: u8, statement: &Statement) -> Result<(), ReplicaFault>
        ensures { result ≡ verdict (take_wish own self.now statement.now) }
    {
        if statement.signer == own {
            return Err(ReplicaFault::Role);
        }
        if self.wish_of(statement.signer) >= statement.view {
            return Err(ReplicaFault::Held);
        }
        Ok(())
    }

    // Whether a slot is one of the next two checkpoints.
    fn is_checkpoint(&self, slot: Slot) -> bool
        ensures { result ≡ is_checkpoint self.now slot.0 }
    {
        let floor = u64::from(self.floor.0);
        let number = u64::from(slot.0);
        number == floor + 16 || number == floor + 32
    }

    fn check_mark(&self, own: u8, statement: &Statement) -> Result<(), ReplicaFault>
        ensures { result ≡ verdict (take_mark own self.now statement.now) }
    {
        if statement.signer == own {
            return Err(ReplicaFault::Role);
        }
        if !self.is_checkpoint(statement.slot) {
            return Err(ReplicaFault::Slot);
        }
        match self.mark_of(statement.slot, statement.signer) {
            None => Ok(()),
            Some(held) if held.mark == statement.command => Err(ReplicaFault::Held),
            Some(_) => Err(ReplicaFault::Unlike),
        }
    }

    // A packet by its first statement. A commit stands alone, or is the first of a certificate. There is no packet that begins with a
    // report or an answer here.
    pub fn check_take(
        &self,
        own: u8,
        statement: &Statement,
        alone: bool,
    ) -> Result<(), ReplicaFault>
        ensures { result ≡ verdict (take_tests statement.now.kind own self.now statement.now alone) }
    {
        match statement.kind {
            Kind::Order => self.check_order(own, statement),
            Kind::Prepare => self.check_prepare(own, statement),
            Kind::Commit if alone => self.check_commit(own, statement),
            Kind::Commit => self.check_certificate(statement),
            Kind::Wish => self.check_wish(own, statement),
            Kind::Checkpoint => self.check_mark(own, statement),
            Kind::Report | Kind::Answer => Ok(()),
        }
    }

    // A lead, before its proof is looked at.
    pub fn check_lead(&self, own: u8, slot: Slot) -> Result<(), ReplicaFault>
        ensures { result ≡ verdict (lead_tests own self.now slot.0) }
    {
        if own != primary(self.view) {
            return Err(ReplicaFault::Role);
        }
        if !self.is_open(slot) {
            return Err(ReplicaFault::Slot);
        }
        Ok(())
    }

    // A lead whose proof stands.
    pub fn check_led(&self, slot: Slot, command: u64) -> Result<(), ReplicaFault>
        ensures { result ≡ verdict (led_tests self.now slot.0 command) }
    {
        self.record(slot).check_order(command)
    }

    pub fn check_leave(&self) -> Result<(), ReplicaFault>
        ensures { result ≡ verdict (leave_tests self.now) }
    {
        if self.view.0 >= LAST_VIEW {
            return Err(ReplicaFault::LastView);
        }
        Ok(())
    }

    pub fn check_report(&self, slot: Slot) -> Result<(), ReplicaFault>
        ensures { result ≡ verdict (report_tests self.now slot.0) }
    {
        if !self.is_open(slot) {
            return Err(ReplicaFault::Slot);
        }
        let prepared = self.record(slot).prepared;
        if prepared.is_there() && prepared.view == self.view {
            return Err(ReplicaFault::Prepared);
        }
        Ok(())
    }

    // The decision that show writes, or why there is none.
    pub fn shown(&self, slot: Slot) -> Result<Certificate, ReplicaFault>
        ensures { result ≡ shown self.now slot.0 }
    {
        if !self.is_open(slot) {
            return Err(ReplicaFault::Slot);
        }
        let Some(decision) = self.decision(slot) else {
            return Err(ReplicaFault::Undecided);
        };
        Ok(decision)
    }

    // The slot behind the count, and its decision, which run carries out.
    pub fn runnable(&self) -> Result<(Slot, Certificate), ReplicaFault>
        ensures { result ≡ runnable self.now }
    {
        let Some(next) = self.count.checked_add(1) else {
            return Err(ReplicaFault::Slot);
        };
        let decision = self.shown(Slot(next))?;
        Ok((Slot(next), decision))
    }
}
