// Roles at the edges of the views, the lengths of orders and proofs, and each rule broken once.
#![tactic(auto)]

#[cfg(test)]
mod tests {
    use packet::{Kind, Slot, Statement, View};
    use proof::{Choice, active, backups, check_packet, check_proof, primary, spare};
    use refusal::ProofFault;
    use sealer::{BenchSealer, Sealer};
    use std::alloc::{AllocError, Global};
    use std::process::Abort;
    use std::test::Fail;

    // A view, its primary and its spare.
    struct Parts(u32, u8, u8);

    static PARTS: [Parts; 7] = [
        Parts(1, 0, 3),
        Parts(2, 1, 0),
        Parts(3, 2, 1),
        Parts(4, 3, 2),
        Parts(5, 0, 3),
        Parts(4_000_000_000, 3, 2),
        Parts(u32::MAX, 2, 1),
    ];

    #[test]
    fn each_view_has_its_parts(rt: HostRuntime) {
        for Parts(view, first, last) in &PARTS {
            assert_eq!(rt; primary(View(*view)), *first);
            assert_eq!(rt; spare(View(*view)), *last);
        }
        assert!(rt; active(View(4)) == [0, 1, 3]);
        assert!(rt; backups(View(3)) == [0, 3]);
    }

    // Kind, signer, view, slot, earlier view and command of a statement.
    #[derive(Clone, Copy)]
    struct Said(Kind, u8, u32, u32, u32, u64);

    // The statements, one behind the other, each under the bench's seal.
    fn written(
        alloc: Global,
        sealer: &mut BenchSealer,
        said: &[Said],
    ) -> Result<Vec<u8>, AllocError> {
        let mut bytes = Vec::new(alloc);
        for Said(kind, signer, view, slot, earlier, command) in said {
            let mut statement = Statement {
                kind: *kind,
                signer: *signer,
                view: View(*view),
                slot: Slot(*slot),
                earlier: View(*earlier),
                command: *command,
                seal: 0,
            };
            statement.seal = sealer.seal(&statement.body());
            bytes.extend_from_slice(&statement.write())?;
        }
        Ok(bytes)
    }

    // The number of the refusal; 0, as the tables have it, where the bytes pass.
    fn refused<T: Drop>(judged: Result<T, ProofFault>) -> u8 {
        judged.err().map_or(0, |fault| fault.refusal().number)
    }

    // What stands at a place in place of what should, and the refusal.
    struct Change(usize, Said, u8);

    fn all_judged(
        rt: &impl Abort,
        alloc: Global,
        said: &[Said],
        changes: &[Change],
    ) -> Result<(), Fail> {
        let mut sealer = BenchSealer::new(0)?;
        for Change(place, other, number) in changes {
            let mut changed = said.to_vec(alloc)?;
            *changed.get_mut(*place).ok_or("no such place")? = *other;
            let bytes = written(alloc, &mut sealer, &changed)?;
            assert_eq!(rt; refused(check_packet(&sealer, &bytes)), *number);
        }
        Ok(())
    }

    // An order of view 3 for command 7 on slot 9, with reports of no earlier view, of view 1 and of view 2.
    static ORDER: [Said; 10] = [
        Said(Kind::Order, 2, 3, 9, 0, 7),
        Said(Kind::Report, 0, 3, 9, 0, 0),
        Said(Kind::Report, 1, 3, 9, 1, 5),
        Said(Kind::Order, 0, 1, 9, 0, 5),
        Said(Kind::Prepare, 1, 1, 9, 0, 5),
        Said(Kind::Prepare, 2, 1, 9, 0, 5),
        Said(Kind::Report, 2, 3, 9, 2, 7),
        Said(Kind::Order, 1, 2, 9, 0, 7),
        Said(Kind::Prepare, 2, 2, 9, 0, 7),
        Said(Kind::Prepare, 3, 2, 9, 0, 7),
    ];

    // The first line changes nothing. Who signed the order itself is for the replica to check.
    static ORDERS: [Change; 20] = [
        Change(0, Said(Kind::Order, 2, 3, 9, 0, 7), 0),
        Change(0, Said(Kind::Order, 1, 3, 9, 0, 7), 0),
        Change(0, Said(Kind::Order, 2, 3, 9, 0, 5), 6),
        Change(0, Said(Kind::Order, 2, 3, 10, 0, 7), 6),
        Change(0, Said(Kind::Order, 2, 4, 9, 0, 7), 6),
        Change(0, Said(Kind::Order, 2, 1, 9, 0, 7), 6),
        Change(1, Said(Kind::Report, 1, 3, 9, 0, 0), 6),
        Change(1, Said(Kind::Prepare, 0, 3, 9, 0, 0), 6),
        Change(1, Said(Kind::Report, 0, 3, 10, 0, 0), 6),
        Change(1, Said(Kind::Report, 0, 4, 9, 0, 0), 6),
        Change(2, Said(Kind::Report, 1, 3, 9, 0, 0), 6),
        Change(2, Said(Kind::Report, 1, 3, 9, 2, 5), 6),
        Change(2, Said(Kind::Report, 1, 3, 9, 1, 7), 6),
        Change(3, Said(Kind::Order, 1, 1, 9, 0, 5), 6),
        Change(4, Said(Kind::Commit, 1, 1, 9, 0, 5), 6),
        Change(5, Said(Kind::Prepare, 3, 1, 9, 0, 5), 6),
        Change(6, Said(Kind::Report, 3, 3, 9, 2, 7), 0),
        Change(9, Said(Kind::Prepare, 3, 2, 10, 0, 7), 6),
        Change(9, Said(Kind::Prepare, 3, 2, 9, 0, 5), 6),
        Change(9, Said(Kind::Prepare, 4, 2, 9, 0, 7), 4),
    ];

    #[test]
    fn an_order_rests_on_its_reports(rt: HostRuntime) -> Result<(), Fail> {
        all_judged(&rt, rt.alloc(), &ORDER, &ORDERS)
    }

    static DECISION: [Said; 3] = [
        Said(Kind::Commit, 0, 4, 9, 0, 7),
        Said(Kind::Commit, 1, 4, 9, 0, 7),
        Said(Kind::Commit, 3, 4, 9, 0, 7),
    ];

    static DECISIONS: [Change; 7] = [
        Change(0, Said(Kind::Commit, 0, 4, 9, 0, 7), 0),
        Change(0, Said(Kind::Commit, 1, 4, 9, 0, 7), 6),
        Change(2, Said(Kind::Commit, 2, 4, 9, 0, 7), 6),
        Change(2, Said(Kind::Commit, 3, 8, 9, 0, 7), 6),
        Change(2, Said(Kind::Commit, 3, 4, 8, 0, 7), 6),
        Change(2, Said(Kind::Commit, 3, 4, 9, 0, 8), 6),
        Change(2, Said(Kind::Prepare, 3, 4, 9, 0, 7), 6),
    ];

    #[test]
    fn a_decision_has_every_active_replica(rt: HostRuntime) -> Result<(), Fail> {
        all_judged(&rt, rt.alloc(), &DECISION, &DECISIONS)
    }

    // Three reports on slot 9 for view 5, whose signers 0, 1 and 2 name these earlier views and command 7; an earlier
    // view of 0 names none.
    fn reports(alloc: Global, earlier: [u32; 3]) -> Result<Vec<Said>, AllocError> {
        let mut said = Vec::new(alloc);
        for (signer, view) in (0u8..3).zip(earlier) {
            if view == 0 {
                said.push(Said(Kind::Report, signer, 5, 9, 0, 0))?;
            } else {
                let [second, third] = backups(View(view));
                said.extend_from_slice(&[
                    Said(Kind::Report, signer, 5, 9, view, 7),
                    Said(Kind::Order, primary(View(view)), view, 9, 0, 7),
                    Said(Kind::Prepare, second, view, 9, 0, 7),
                    Said(Kind::Prepare, third, view, 9, 0, 7),
                ])?;
            }
        }
        Ok(said)
    }

    #[test]
    fn the_longest_order_is_taken_whole(rt: HostRuntime) -> Result<(), Fail> {
        let mut sealer = BenchSealer::new(0)?;
        let mut said = Vec::new(rt.alloc());
        said.push(Said(Kind::Order, 0, 5, 9, 0, 7))?;
        said.extend_from_slice(&reports(rt.alloc(), [1, 2, 3])?)?;
        let bytes = written(rt.alloc(), &mut sealer, &said)?;
        let taken = check_packet(&sealer, &bytes).ok();
        assert_eq!(rt; taken.map(|packet| packet.parts.count()), Some(13));
        Ok(())
    }

    // Earlier views, how many bytes are handed in (cut short or with zeros behind), the view and the command, and the refusal.
    struct Lead([u32; 3], usize, u32, u64, u8);

    static LEADS: [Lead; 13] = [
        Lead([0, 0, 0], 0, 1, 7, 0),
        Lead([0, 0, 0], 0, 5, 7, 6),
        Lead([0, 0, 0], 90, 5, 8, 0),
        Lead([0, 4, 0], 180, 5, 7, 0),
        Lead([3, 0, 4], 270, 5, 7, 0),
        Lead([1, 2, 3], 360, 5, 7, 0),
        Lead([1, 2, 3], 360, 5, 8, 6),
        Lead([0, 0, 0], 90, 1, 7, 6),
        Lead([0, 0, 0], 90, 4, 7, 6),
        Lead([1, 2, 3], 270, 5, 7, 6),
        Lead([1, 2, 3], 60, 5, 7, 3),
        Lead([1, 2, 3], 300, 5, 7, 3),
        Lead([1, 2, 3], 390, 5, 7, 3),
    ];

    #[test]
    fn a_lead_rests_on_its_proof(rt: HostRuntime) -> Result<(), Fail> {
        let mut sealer = BenchSealer::new(0)?;
        for Lead(earlier, length, view, command, number) in &LEADS {
            let mut bytes = written(rt.alloc(), &mut sealer, &reports(rt.alloc(), *earlier)?)?;
            bytes.resize(*length, 0)?;
            let choice = Choice {
                view: View(*view),
                slot: Slot(9),
                command: *command,
            };
            assert_eq!(rt; refused(check_proof(&sealer, choice, &bytes)), *number);
        }
        Ok(())
    }
}
