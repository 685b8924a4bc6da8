// What a replica holds besides its sealer and its service.
ghost use Rattle.std.specs.Prelude.{◌≡◌, ◌/◌, ◌%◌, map};
ghost use Rattle.slots.specs.Cores.{first_core, no_mark, is_open, record_at, led, ordered, prepare_counted, is_prepared, slot_confirmed, commit_counted, certified, entered, wish_of, with_wish, others_wish, wished, row, mark_at, mark_if_held, has_mark, with_mark, mark_above, is_agreed, collected, mark_kept, with_count, is_decided, decision, Highest, AnswersMissing};

use super::records::{Certificate, Record};
use super::tables::{Table, place_of};
use ballot::{Mark, MarkBallot, count_marks};
use packet::{Slot, View};

// The last slot that there is.
const LAST_SLOT: u32 = 4_000_000_000;

// Wishes stand by signer; the marks of slot n in row n / 16 modulo 2, by signer. View 0 is no wish and slot 0 no floor, since a C++
// host can hold no `Option`.
#[repr(C)]
#[derive(Clone, Copy)]
pub struct Core {
    pub view: View,
    pub count: u32,
    pub floor: Slot,
    pub wishes: [View; 4],
    pub table: Table,
    pub marks: [[MarkBallot; 4]; 2],
}

impl Core {
    // View 1, nothing carried out, nothing collected, nothing held.
    pub fn first() -> Core
        ensures { result ≡ first_core }
    {
        Core {
            view: View(1),
            count: 0,
            floor: Slot(0),
            wishes: [View(0); 4],
            table: Table {
                records: [Record::blank(); 32],
            },
            marks: [[no_mark(); 4]; 2],
        }
    }

    // Whether a slot is one of the 32 behind the floor, and there is such a slot.
    pub fn is_open(&self, slot: Slot) -> bool
        ensures { result ≡ is_open self.now slot.0 }
    {
        let floor = u64::from(self.floor.0);
        let number = u64::from(slot.0);
        floor < number && number <= floor + 32 && slot.0 <= LAST_SLOT
    }

    // The record that a slot has while it is open.
    pub fn record(&self, slot: Slot) -> &Record
        ensures { result.now ≡ record_at self.now slot.0 }
    {
        self.table.record(slot)
    }

    // Accepts an own order, for whoever leads.
    pub fn lead(&mut self, slot: Slot, command: u64, seal: u64)
        ensures { self.new ≡ led self.old slot.0 command seal }
    {
        self.table.records[place_of(slot)].accept(command, seal);
    }

    // Accepts another's order, and holds the own prepare.
    pub fn accept(&mut self, own: u8, slot: Slot, command: u64, seal: u64, vote: u64)
        ensures { self.new ≡ ordered own self.old slot.0 command seal vote }
    {
        let record = &mut self.table.records[place_of(slot)];
        record.accept(command, seal);
        record.prepares.hold(own, vote);
    }

    // Counts a prepare.
    pub fn prepare(&mut self, slot: Slot, signer: u8, seal: u64)
        ensures { self.new ≡ prepare_counted self.old slot.0 signer seal }
    {
        let record = &mut self.table.records[place_of(slot)];
        record.prepares.hold(signer, seal);
    }

    // Whether the order and both prepares of the present view are held.
    pub fn is_prepared(&self, slot: Slot) -> bool
        ensures { result ≡ is_prepared self.now slot.0 }
    {
        self.record(slot).is_prepared(self.view)
    }

    // Keeps that the slot is prepared in the present view, and holds the own commit.
    pub fn confirm(&mut self, own: u8, slot: Slot, seal: u64)
        ensures { self.new ≡ slot_confirmed own self.old slot.0 seal }
    {
        self.table.records[place_of(slot)].confirm(own, self.view, seal);
    }

    // Counts a commit, and decides the slot by the third.
    pub fn commit(&mut self, slot: Slot, signer: u8, seal: u64)
        ensures { self.new ≡ commit_counted self.old slot.0 signer seal }
    {
        let view = self.view;
        let record = &mut self.table.records[place_of(slot)];
        record.commits.hold(signer, seal);
        record.settle(view);
    }

    // Decides a slot by a certificate.
    pub fn decide(&mut self, slot: Slot, certificate: Certificate)
        ensures { self.new ≡ certified self.old slot.0 certificate }
    {
        self.table.records[place_of(slot)].decided = certificate;
    }

    // Whether the decision of a slot is held, while it is open.
    pub fn is_decided(&self, slot: Slot) -> bool
        ensures { result ≡ is_decided self.now slot.0 }
    {
        self.is_open(slot) && self.record(slot).decided.is_there()
    }

    // The decision of a slot, while it is open.
    pub fn decision(&self, slot: Slot) -> Option<Certificate>
        ensures { result ≡ decision self.now slot.0 }
    {
        self.is_decided(slot).then_some(self.record(slot).decided)
    }

    // The highest decided slot; slot 0 where none is.
    fn highest_decided(&self) -> Slot
        ensures { Highest self.now result.0 }
    {
        let mut highest = Slot(0);
        for below in self.floor.0..self.floor.0.saturating_add(32) {
            if self.is_decided(Slot(below + 1)) {
                highest = Slot(below + 1);
            }
        }
        highest
    }

    // A slot above the count that is not decided, though one above it is. A program must not rely on which of these it is told.
    pub fn missing(&self) -> Option<Slot>
        ensures { AnswersMissing self.now result }
    {
        for below in self.count..self.highest_decided().0 {
            if !self.is_decided(Slot(below + 1)) {
                return Some(Slot(below + 1));
            }
        }
        None
    }

    // Enters a view: orders and votes are dropped, certificates stay.
    #[tactic(auto, using(crate::proofs::InPlace::mapped_none, crate::proofs::InPlace::mapped_next, crate::proofs::InPlace::mapped_all))]
    pub fn enter(&mut self, view: View)
        ensures { self.new ≡ entered self.old view.0 }
    {
        self.view = view;
        for record in self.table.records.iter_mut() {
            record.drop_view();
        }
    }

    // The highest view that this signer wished for; view 0 where it wished for none.
    pub fn wish_of(&self, signer: u8) -> View
        ensures { result.0 ≡ wish_of self.now signer }
    {
        self.wishes
            .get(usize::from(signer))
            .copied()
            .unwrap_or(View(0))
    }

    // Keeps this signer's wish. There is no signer above 3, and nothing is kept of one.
    pub fn hold_wish(&mut self, signer: u8, view: View)
        ensures { self.new ≡ with_wish self.old signer view.0 }
    {
        let at = usize::from(signer);
        if at < 4 {
            self.wishes[at] = view;
        }
    }

    // The own wish counts nothing.
    fn others_wish(&self, own: u8, signer: u8) -> u32
        ensures { result ≡ others_wish own self.now signer }
    {
        if signer == own {
            0
        } else {
            self.wish_of(signer).0
        }
    }

    // The second highest view that the others wish for: one of the two who wish for it or for more keeps the rules.
    pub fn wished(&self, own: u8) -> View
        ensures { result.0 ≡ wished own self.now }
    {
        let [a, b, c, d] = [0, 1, 2, 3].map(|signer| self.others_wish(own, signer));
        let low = a.min(b).max(c.min(d));
        View(a.max(b).min(c.max(d)).max(low))
    }

    // Counts a slot that was carried out.
    pub fn carry_out(&mut self, slot: Slot)
        ensures { self.new ≡ with_count self.old slot.0 }
    {
        self.count = slot.0;
    }

    fn row(&self, slot: Slot) -> &[MarkBallot; 4]
        ensures { result.now ≡ row self.now slot.0 }
    {
        &self.marks[row_of(slot)]
    }

    // This signer's mark of a slot, if it is held.
    pub fn mark_of(&self, slot: Slot, signer: u8) -> Option<Mark>
        ensures { result ≡ mark_if_held self.now slot.0 signer }
    {
        let place = self.row(slot).get(usize::from(signer))?;
        place.held_mark().filter(|mark| mark.slot == slot)
    }

    // Holds this signer's mark of a slot. There is no signer above 3, and nothing is held of one.
    fn hold_mark(&mut self, slot: Slot, signer: u8, mark: u64)
        ensures { self.new ≡ with_mark self.old slot.0 signer mark }
    {
        let row = &mut self.marks[row_of(slot)];
        let at = usize::from(signer);
        if at < 4 {
            row[at] = MarkBallot {
                held: true,
                slot,
                mark,
            };
        }
    }

    // Whether three or more equal marks of a slot are held, the own among them.
    fn is_agreed(&self, own: u8, slot: Slot) -> bool
        ensures { result ≡ is_agreed own self.now slot.0 }
    {
        let Some(mark) = self.mark_of(slot, own) else {
            return false;
        };
        count_marks(self.row(slot), &mark) >= 3
    }

    // Collects the slots up to this one: their records and marks go, and the floor is there.
    #[tactic(auto, using(crate::proofs::InPlace::mapped_none, crate::proofs::InPlace::mapped_next, crate::proofs::InPlace::mapped_all))]
    fn collect(&mut self, slot: Slot)
        ensures { self.new ≡ collected self.old slot.0 }
    {
        self.table.clear(self.floor, slot);
        for row in self.marks.iter_mut() {
            drop_marks(row, slot);
        }
        self.floor = slot;
    }

    // Holds a mark, and moves the floor to its slot where the marks agree.
    pub fn keep_mark(&mut self, own: u8, slot: Slot, signer: u8, mark: u64)
        ensures { self.new ≡ mark_kept own self.old slot.0 signer mark }
    {
        self.hold_mark(slot, signer, mark);
        if self.is_agreed(own, slot) {
            self.collect(slot);
        }
    }
}

// The place of a mark that is not held.
fn no_mark() -> MarkBallot
    ensures { result ≡ no_mark }
{
    MarkBallot {
        held: false,
        slot: Slot(0),
        mark: 0,
    }
}

// A mark of a slot up to the floor goes.
fn mark_above(place: MarkBallot, floor: Slot) -> MarkBallot
    ensures { result ≡ mark_above floor.0 place }
{
    if place.slot <= floor {
        no_mark()
    } else {
        place
    }
}

#[tactic(auto, using(crate::proofs::InPlace::mapped_none, crate::proofs::InPlace::mapped_next, crate::proofs::InPlace::mapped_all))]
fn drop_marks(row: &mut [MarkBallot; 4], floor: Slot)
    ensures { row.new ≡ map (mark_above floor.0) row.old }
{
    for place in row.iter_mut() {
        *place = mark_above(*place, floor);
    }
}

// The marks of slot n stand in row n / 16 modulo 2.
fn row_of(slot: Slot) -> usize
    ensures { result ≡ slot.0 / 16 % 2 }
{
    (slot.0 / 16 % 2) as usize
}
