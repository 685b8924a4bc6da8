// The open slots' records.
ghost use Rattle.std.specs.Prelude.{◌≡◌, ◌-◌, ◌%◌, slice_index_or};
ghost use Rattle.slots.specs.Records.{blank};
ghost use Rattle.slots.specs.Cores.{cleared};

use super::records::Record;
use packet::Slot;

// The record of slot n stands at n modulo 32.
#[repr(C)]
#[derive(Clone, Copy)]
pub struct Table {
    pub records: [Record; 32],
}

impl Table {
    pub(crate) fn record(&self, slot: Slot) -> &Record
        ensures { result.now ≡ slice_index_or self.now.records (slot.0 % 32) blank }
    {
        &self.records[place_of(slot)]
    }

    // Empties the records of the slots behind the floor, up to this one.
    pub(crate) fn clear(&mut self, floor: Slot, slot: Slot)
        ensures { self.new.records ≡ cleared self.old.records floor.0 (slot.0 - floor.0) }
    {
        for below in floor.0..slot.0 {
            self.records[place_of(Slot(below + 1))] = Record::blank();
        }
    }
}

pub(crate) fn place_of(slot: Slot) -> usize
    ensures { result ≡ slot.0 % 32 }
{
    (slot.0 % 32) as usize
}
