// Reports, and what the reports behind an order bind it to.
ghost use Rattle.std.specs.Prelude.{◌≡◌, ◌≤◌, length, IfOk};
ghost use Rattle.proof.specs.Reports.{holds, reports_on, highest, allows, all_allow, justify, seen_group, group_of, behind, check_reports, check_backing};

use super::certificates::Choice;
use packet::{Kind, Statement, View};
use refusal::ProofFault;

// A test is passed, or the rule is broken.
pub(crate) fn rule(kept: bool) -> Result<(), ProofFault>
    ensures { result ≡ holds kept }
{
    if kept { Ok(()) } else { Err(ProofFault::Rule) }
}

// A report, and the parts behind it and its certificate.
#[derive(Clone, Copy)]
struct Group<'a> {
    report: Statement,
    behind: &'a [[u8; 30]],
}

// The highest earlier view that a report names.
fn highest(reports: &[Statement]) -> u32
    ensures { result ≡ highest reports.now }
{
    reports
        .iter()
        .fold(0, |highest, report| report.earlier.0.max(highest))
}

// Whether a report allows a command, by the highest earlier view that was reported.
fn allows(highest: u32, command: u64, report: &Statement) -> bool
    ensures { result ≡ allows highest command report.now }
{
    highest == 0 || report.earlier.0 < highest || report.command == command
}

fn all_allow(highest: u32, command: u64, reports: &[Statement]) -> bool
    ensures { result ≡ all_allow highest command reports.now }
{
    reports
        .iter()
        .all(|report| allows(highest, command, report))
}

// Whether an order may name the command, by three reports.
#[tactic(auto, unfolding(crate::specs::Reports::justify))]
fn justify(command: u64, reports: &[Statement; 3]) -> bool
    ensures { result ≡ justify command reports.now }
{
    let [first, second, third] = reports;
    first.signer < second.signer
        && second.signer < third.signer
        && all_allow(highest(reports), command, reports)
}

impl Choice {
    // Whether a statement is a report for this view on this slot.
    fn is_reported(self, report: &Statement) -> bool
        ensures { result ≡ reports_on self.view.0 self.slot.0 report.now }
    {
        report.kind == Kind::Report && report.view == self.view && report.slot == self.slot
    }

    // The group that the parts begin with: a report that stands alone, or has the certificate of its earlier view behind it.
    #[tactic(auto, using(crate::proofs::Shifted::group_none, crate::proofs::Shifted::group_unread, crate::proofs::Shifted::group_unlike))]
    fn group(self, parts: &[[u8; 30]]) -> Result<Group<'_>, ProofFault>
        ensures exact { seen_group result ≡ group_of self.view.0 self.slot.0 parts.now }
        ensures there { IfOk result (λ g. behind 0 g.report ≤ length parts.now) }
    {
        let [part, rest @ ..] = parts else {
            return Err(ProofFault::Rule);
        };
        let Some(report) = Statement::decode(part) else {
            return Err(ProofFault::Rule);
        };
        if !self.is_reported(&report) {
            return Err(ProofFault::Rule);
        }
        if report.earlier == View(0) {
            return Ok(Group {
                report,
                behind: rest,
            });
        }
        let named = Choice {
            view: report.earlier,
            slot: self.slot,
            command: report.command,
        };
        let certified = named.is_prepared(rest);
        if !certified {
            return Err(ProofFault::Rule);
        }
        Ok(Group {
            report,
            behind: &rest[3..],
        })
    }

    // Checks three groups with nothing behind them, whose reports justify the command.
    #[tactic(auto, using(crate::proofs::Shifted::first_fails, crate::proofs::Shifted::second_fails, crate::proofs::Shifted::third_fails, crate::proofs::Shifted::three_stand))]
    fn check_reports(self, parts: &[[u8; 30]]) -> Result<(), ProofFault>
        ensures { result ≡ check_reports self.view.0 self.slot.0 self.command parts.now 0 }
    {
        let first = self.group(parts)?;
        let second = self.group(first.behind)?;
        let third = self.group(second.behind)?;
        rule(third.behind.is_empty())?;
        rule(justify(self.command, &[first.report, second.report, third.report]))
    }

    // Checks what an order rests on: nothing in view 1, in any other view three reports.
    #[tactic(auto, unfolding(crate::specs::Reports::check_backing))]
    pub(crate) fn check_backing(self, parts: &[[u8; 30]]) -> Result<(), ProofFault>
        ensures { result ≡ check_backing self.view.0 self.slot.0 self.command parts.now 0 }
    {
        if self.view == View(1) {
            rule(parts.is_empty())
        } else {
            self.check_reports(parts)
        }
    }
}
