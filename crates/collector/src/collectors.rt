// A collector is `Waiting` while it takes answers, and `Closed` once two results agree. Both are plain values that move: there
// is no result to read before the close, and nothing takes an answer after it.
ghost use Rattle.std.specs.Prelude.{◌≡◌};
ghost use Rattle.collector.specs.Laws.{ClosesExactly};
ghost use Rattle.collector.specs.Collectors.{new_waiting, added, agreed_result, closing};

use ballot::count;
use packet::{Reader, Slot};
use refusal::CollectorFault;
use sealer::{Sealer, open};

// A collector that takes answers: for which slot, and each replica's first result.
#[derive(Drop)]
pub struct Waiting {
    slot: Slot,
    results: [Option<u64>; 4],
}

// A collector that has its result.
#[derive(Drop)]
pub struct Closed {
    slot: Slot,
    result: u64,
}

// A collector that could not close yet, handed back as it was.
#[derive(Drop)]
pub struct Unclosed {
    pub waiting: Waiting,
    pub fault: CollectorFault,
}

impl Waiting {
    // A collector for one slot, without any answer.
    pub fn new(slot: Slot) -> Result<Waiting, CollectorFault>
        ensures { result ≡ new_waiting slot }
    {
        if !slot.is_valid() {
            return Err(CollectorFault::Slot);
        }
        Ok(Waiting {
            slot,
            results: [None; 4],
        })
    }

    // Takes a replica's answer, if it is under a genuine seal, for this slot and the first of its signer.
    pub fn add<S: Sealer>(&mut self, sealer: &S, bytes: &[u8]) -> Result<(), CollectorFault>
        ensures answer { result ≡ (added (S.genuine sealer.now) self.old bytes.now).0 }
        ensures after { self.new ≡ (added (S.genuine sealer.now) self.old bytes.now).1 }
    {
        let answer = open(sealer, Reader::Collector, bytes)?.first;
        if answer.slot != self.slot {
            return Err(CollectorFault::Slot);
        }
        let place = &mut self.results[usize::from(answer.signer)];
        match *place {
            None => {
                *place = Some(answer.command);
                Ok(())
            }
            Some(kept) if kept != answer.command => Err(CollectorFault::Unlike),
            Some(_) => Err(CollectorFault::Held),
        }
    }

    // Closes with the result that two replicas gave, or hands the collector back.
    #[tactic(auto, using(crate::proofs::Pairs::closes_exactly))]
    pub fn close(self) -> Result<Closed, Unclosed>
        ensures exact { result ≡ closing self }
        ensures law { ClosesExactly }
    {
        let Some(result) = agreed(&self.results) else {
            return Err(Unclosed {
                waiting: self,
                fault: CollectorFault::Apart,
            });
        };
        Ok(Closed {
            slot: self.slot,
            result,
        })
    }
}

// The result that two places hold; where two pairs agree, that of the first place among them.
fn agreed(places: &[Option<u64>]) -> Option<u64>
    ensures { result ≡ agreed_result places.now }
{
    places
        .iter()
        .copied()
        .flatten()
        .find(|ballot| count(places, ballot) >= 2)
}

impl Closed {
    pub fn slot(&self) -> Slot
        ensures { result ≡ self.now.slot }
    {
        self.slot
    }

    pub fn result(&self) -> u64
        ensures { result ≡ self.now.result }
    {
        self.result
    }
}
