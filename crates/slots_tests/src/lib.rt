// A slot on its way to a decision, a change of view, wishes, marks, and each refusal once.
#![tactic(auto)]

#[cfg(test)]
mod tests {
    use packet::{Kind, Slot, Statement, View};
    use refusal::ReplicaFault;
    use slots::{Certificate, Core};
    use std::process::Abort;
    use std::test::Fail;

    // Kind, signer, view, slot and command of a statement.
    struct Said(Kind, u8, u32, u32, u64);

    fn statement(Said(kind, signer, view, slot, command): &Said) -> Statement {
        Statement {
            kind: *kind,
            signer: *signer,
            view: View(*view),
            slot: Slot(*slot),
            earlier: View(0),
            command: *command,
            seal: 0,
        }
    }

    // Replica 1 in view 1, whose primary is 0 and whose spare is 3, has the order of command 7, and its own prepare.
    fn ordered() -> Core {
        let mut core = Core::first();
        core.accept(1, Slot(1), 7, 100, 101);
        core
    }

    // Replica 2's prepare has come too.
    fn prepared() -> Core {
        let mut core = ordered();
        core.prepare(Slot(1), 2, 102);
        core.confirm(1, Slot(1), 201);
        core
    }

    // And the commits of 0 and 2.
    fn decided() -> Core {
        let mut core = prepared();
        core.commit(Slot(1), 0, 200);
        core.commit(Slot(1), 2, 202);
        core
    }

    #[test]
    fn three_commits_decide_a_prepared_slot(rt: HostRuntime) {
        assert!(rt; !ordered().is_prepared(Slot(1)));
        assert!(rt; prepared().is_prepared(Slot(1)));
        assert!(rt; prepared().decision(Slot(1)).is_none());
        let Some(decision) = decided().decision(Slot(1)) else {
            panic!(rt; "three commits decide the slot");
        };
        assert_eq!(rt; decision.command, 7);
        assert!(rt; decision.seals == [200, 201, 202]);
        assert!(rt; decided().record(Slot(1)).prepared.seals == [100, 101, 102]);
    }

    // What the replica holds of slot 1.
    enum Held {
        Nothing,
        Order,
        Certificate,
        Decision,
    }

    fn holding(held: &Held) -> Core {
        match held {
            Held::Nothing => Core::first(),
            Held::Order => ordered(),
            Held::Certificate => prepared(),
            Held::Decision => decided(),
        }
    }

    // What is held, what comes, whether it comes alone, and the number of the refusal; 0 where it is taken.
    struct Case(Held, Said, bool, u8);

    static CASES: [Case; 28] = [
        Case(Held::Nothing, Said(Kind::Order, 0, 1, 1, 7), true, 0),
        Case(Held::Nothing, Said(Kind::Order, 0, 1, 32, 7), true, 0),
        Case(Held::Nothing, Said(Kind::Order, 0, 2, 1, 7), true, 7),
        Case(Held::Nothing, Said(Kind::Order, 2, 1, 1, 7), true, 8),
        Case(Held::Nothing, Said(Kind::Order, 1, 1, 1, 7), true, 8),
        Case(Held::Nothing, Said(Kind::Order, 0, 1, 33, 7), true, 9),
        Case(Held::Order, Said(Kind::Order, 0, 1, 1, 5), true, 11),
        Case(Held::Order, Said(Kind::Order, 0, 1, 1, 7), true, 12),
        Case(Held::Nothing, Said(Kind::Prepare, 2, 1, 1, 7), true, 10),
        Case(Held::Order, Said(Kind::Prepare, 2, 1, 1, 7), true, 0),
        Case(Held::Order, Said(Kind::Prepare, 0, 1, 1, 7), true, 8),
        Case(Held::Order, Said(Kind::Prepare, 3, 1, 1, 7), true, 8),
        Case(Held::Order, Said(Kind::Prepare, 2, 1, 1, 5), true, 11),
        Case(Held::Certificate, Said(Kind::Prepare, 2, 1, 1, 7), true, 12),
        Case(Held::Order, Said(Kind::Commit, 0, 1, 1, 7), true, 0),
        Case(Held::Order, Said(Kind::Commit, 3, 1, 1, 7), true, 8),
        Case(Held::Decision, Said(Kind::Commit, 0, 1, 1, 7), true, 12),
        Case(Held::Decision, Said(Kind::Commit, 0, 1, 1, 5), true, 11),
        Case(Held::Nothing, Said(Kind::Commit, 0, 9, 1, 7), false, 0),
        Case(Held::Nothing, Said(Kind::Commit, 0, 9, 33, 7), false, 9),
        Case(Held::Decision, Said(Kind::Commit, 0, 9, 1, 5), false, 11),
        Case(Held::Decision, Said(Kind::Commit, 0, 9, 1, 7), false, 12),
        Case(Held::Nothing, Said(Kind::Wish, 0, 2, 0, 0), true, 0),
        Case(Held::Nothing, Said(Kind::Wish, 1, 2, 0, 0), true, 8),
        Case(Held::Nothing, Said(Kind::Wish, 0, 0, 0, 0), true, 12),
        Case(Held::Nothing, Said(Kind::Checkpoint, 0, 0, 32, 7), true, 0),
        Case(Held::Nothing, Said(Kind::Checkpoint, 1, 0, 16, 7), true, 8),
        Case(Held::Nothing, Said(Kind::Checkpoint, 0, 0, 48, 7), true, 9),
    ];

    // The number of the refusal; 0, as the table has it, where there is none.
    fn refused<T: Drop>(judged: Result<T, ReplicaFault>) -> u8 {
        judged.err().map_or(0, |fault| fault.refusal().number)
    }

    #[test]
    fn each_refusal_has_its_number(rt: HostRuntime) {
        for Case(held, said, alone, number) in &CASES {
            let judged = holding(held).check_take(1, &statement(said), *alone);
            assert_eq!(rt; refused(judged), *number);
        }
    }

    #[test]
    fn a_view_drops_orders_and_keeps_certificates(rt: HostRuntime) {
        let mut core = decided();
        assert_eq!(rt; refused(core.check_report(Slot(1))), 13);
        core.enter(View(2));
        assert_eq!(rt; refused(core.check_report(Slot(1))), 0);
        assert!(rt; core.record(Slot(1)).order().is_none());
        assert!(rt; core.record(Slot(1)).prepared.if_there().is_some());
        assert!(rt; core.decision(Slot(1)).is_some());
        assert_eq!(rt; refused(core.check_lead(1, Slot(1))), 0);
        assert_eq!(rt; refused(core.check_led(Slot(1), 5)), 11);
        assert_eq!(rt; refused(core.check_led(Slot(1), 7)), 0);
    }

    #[test]
    fn a_slot_is_carried_out_behind_the_count(rt: HostRuntime) {
        let mut core = Core::first();
        assert_eq!(rt; refused(core.runnable()), 14);
        core.count = 65_535;
        core.floor = Slot(65_520);
        core.commit(Slot(65_536), 0, 1);
        assert_eq!(rt; refused(core.shown(Slot(65_536))), 14);
        core.decide(
            Slot(65_538),
            Certificate {
                view: View(1),
                command: 7,
                seals: [1, 2, 3],
            },
        );
        assert!(rt; core.missing().is_some());
        core.decide(
            Slot(65_536),
            Certificate {
                view: View(1),
                command: 7,
                seals: [1, 2, 3],
            },
        );
        core.decide(
            Slot(65_537),
            Certificate {
                view: View(1),
                command: 7,
                seals: [1, 2, 3],
            },
        );
        assert!(rt; core.missing().is_none());
        let Ok((slot, decision)) = core.runnable() else {
            panic!(rt; "the slot behind the count is decided");
        };
        core.carry_out(slot);
        assert_eq!(rt; core.count, 65_536);
        assert_eq!(rt; decision.command, 7);
    }

    #[test]
    fn two_others_move_view_and_floor(rt: HostRuntime) {
        let mut core = decided();
        core.hold_wish(0, View(5));
        assert_eq!(rt; core.wished(1).0, 0);
        core.hold_wish(2, View(2));
        assert_eq!(rt; core.wished(1).0, 2);
        core.keep_mark(1, Slot(16), 0, 7);
        let same = statement(&Said(Kind::Checkpoint, 0, 0, 16, 7));
        assert_eq!(rt; refused(core.check_take(1, &same, true)), 12);
        let other = statement(&Said(Kind::Checkpoint, 0, 0, 16, 5));
        assert_eq!(rt; refused(core.check_take(1, &other, true)), 11);
        core.keep_mark(1, Slot(16), 2, 7);
        core.keep_mark(1, Slot(16), 3, 7);
        assert_eq!(rt; core.floor.0, 0);
        core.keep_mark(1, Slot(16), 1, 7);
        assert_eq!(rt; core.floor.0, 16);
        assert!(rt; core.decision(Slot(1)).is_none());
        assert!(rt; core.mark_of(Slot(16), 0).is_none());
        assert_eq!(rt; refused(core.shown(Slot(1))), 9);
        core.view = View(4_000_000_000);
        assert_eq!(rt; refused(core.check_leave()), 15);
    }
}
