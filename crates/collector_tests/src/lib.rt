// The collector at its edges: results of four replicas, and each refusal in its order.
#![tactic(auto)]

#[cfg(test)]
mod tests {
    use collector::{Unclosed, Waiting};
    use packet::{Kind, Slot, Statement, View};
    use refusal::{CollectorFault, SealerFault};
    use sealer::{BenchSealer, sign};
    use std::process::Abort;
    use std::test::Fail;

    // A replica's answer under the bench's seal. The demo has the like under keys; a crate for one literal would be no plainer.
    fn answer(signer: u8, slot: u32, outcome: u64) -> Result<[u8; 30], SealerFault> {
        let unsealed = Statement {
            kind: Kind::Answer,
            signer: 0,
            view: View(0),
            slot: Slot(slot),
            earlier: View(0),
            command: outcome,
            seal: 0,
        };
        let mut replica = BenchSealer::new(signer)?;
        Ok(sign(&mut replica, unsealed).write())
    }

    // What a collector for slot 5 closes with after these replicas' results, or none.
    fn closed_with(rt: &impl Abort, results: &[(u8, u64)]) -> Result<Option<u64>, Fail> {
        let client = BenchSealer::new(0)?;
        let mut waiting = Waiting::new(Slot(5))?;
        for &(signer, outcome) in results {
            waiting.add(&client, &answer(signer, 5, outcome)?)?;
        }
        match waiting.close() {
            Ok(closed) => Ok(Some(closed.result())),
            Err(Unclosed { fault, .. }) => {
                assert!(rt; fault == CollectorFault::Apart);
                Ok(None)
            }
        }
    }

    #[test]
    fn two_equal_results_close_and_the_lowest_replica_counts(rt: HostRuntime) -> Result<(), Fail> {
        assert_eq!(rt; closed_with(&rt, &[])?, None);
        assert_eq!(rt; closed_with(&rt, &[(3, 9)])?, None);
        assert_eq!(rt;
            closed_with(&rt, &[(0, 9), (1, 7), (2, 7), (3, 9)])?,
            Some(9)
        );
        assert_eq!(rt;
            closed_with(&rt, &[(3, 9), (2, 7), (1, 7), (0, 9)])?,
            Some(9)
        );
        assert_eq!(rt;
            closed_with(&rt, &[(0, 1), (1, 7), (2, 8), (3, 7)])?,
            Some(7)
        );
        assert_eq!(rt; closed_with(&rt, &[(0, 1), (1, 2), (2, 3), (3, 4)])?, None);
        assert_eq!(rt; closed_with(&rt, &[(2, 0), (3, 0)])?, Some(0));
        Ok(())
    }

    #[test]
    fn a_collector_is_made_for_a_slot_that_there_is(rt: HostRuntime) {
        assert!(rt; Waiting::new(Slot(0)).is_err());
        assert!(rt; Waiting::new(Slot(1)).is_ok());
        assert!(rt; Waiting::new(Slot(4_000_000_000)).is_ok());
        assert!(rt; Waiting::new(Slot(4_000_000_001)).is_err());
    }

    // The number of the refusal; 0, as the lines below have it, where the answer is kept.
    fn refused(waiting: &mut Waiting, bytes: &[u8]) -> Result<u8, Fail> {
        let client = BenchSealer::new(0)?;
        match waiting.add(&client, bytes) {
            Ok(()) => Ok(0),
            Err(fault) => Ok(fault.refusal().number),
        }
    }

    // The bytes with one of them changed.
    fn changed(mut bytes: [u8; 30], at: usize, by: u8) -> Result<[u8; 30], Fail> {
        *bytes.get_mut(at).ok_or("no such byte")? ^= by;
        Ok(bytes)
    }

    #[test]
    fn each_refusal_comes_in_its_order(rt: HostRuntime) -> Result<(), Fail> {
        let mut waiting = Waiting::new(Slot(5))?;
        let good = answer(2, 5, 9)?;
        assert_eq!(rt; refused(&mut waiting, &[])?, 2);
        assert_eq!(rt; refused(&mut waiting, &changed(good, 0, 0xFF)?)?, 2);
        assert_eq!(rt; refused(&mut waiting, &good[0..29])?, 3);
        assert_eq!(rt; refused(&mut waiting, &changed(good, 1, 4)?)?, 4);
        assert_eq!(rt; refused(&mut waiting, &changed(good, 29, 1)?)?, 5);
        assert_eq!(rt; refused(&mut waiting, &answer(2, 6, 9)?)?, 9);
        assert_eq!(rt; refused(&mut waiting, &good)?, 0);
        assert_eq!(rt; refused(&mut waiting, &answer(2, 6, 8)?)?, 9);
        assert_eq!(rt; refused(&mut waiting, &answer(2, 5, 8)?)?, 11);
        assert_eq!(rt; refused(&mut waiting, &good)?, 12);
        Ok(())
    }
}
