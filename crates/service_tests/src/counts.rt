// Counts over places of which some are empty.
ghost use Rattle.std.specs.Bool.{then_some};

use ballot::{Mark, MarkBallot, Place, count, count_marks, count_places};
use packet::Slot;

// A host's own flat place, for a channel's reading.
#[derive(Clone, Copy)]
struct Held {
    there: bool,
    reading: u32,
}

impl Place<u32> for Held {
    ghost held = { λ place. then_some place.there place.reading };

    fn holds(&self, like: &u32) -> bool {
        self.there && self.reading == *like
    }
}

fn read(there: bool, reading: u32) -> Held {
    Held { there, reading }
}

fn place(held: bool, slot: u32, mark: u64) -> MarkBallot {
    MarkBallot {
        held,
        slot: Slot(slot),
        mark,
    }
}

fn mark(slot: u32, mark: u64) -> Mark {
    Mark {
        slot: Slot(slot),
        mark,
    }
}

#[test]
fn equal_results_are_counted(rt: HostRuntime) {
    let places: [Option<u64>; 4] = [Some(9), Some(7), None, Some(9)];
    assert_eq!(rt; count(&places, &9), 2);
    assert_eq!(rt; count(&places, &7), 1);
    assert_eq!(rt; count(&places, &8), 0);
    assert_eq!(rt; count(&places, &0), 0);
    assert_eq!(rt; count(&places[0..0], &9), 0);
}

#[test]
fn equal_marks_of_one_slot_are_counted(rt: HostRuntime) {
    let row = [
        place(true, 16, 5),
        place(true, 32, 5),
        // What an empty place has beside its flag counts nothing.
        place(false, 16, 5),
        place(true, 16, 5),
    ];
    assert_eq!(rt; count_marks(&row, &mark(16, 5)), 2);
    assert_eq!(rt; count_marks(&row, &mark(32, 5)), 1);
    assert_eq!(rt; count_marks(&row, &mark(16, 6)), 0);
}

#[test]
fn rows_of_every_form_and_length_are_counted(rt: HostRuntime) {
    let marks = [place(true, 16, 5), place(true, 16, 5), place(true, 16, 5)];
    assert_eq!(rt; count_marks(&marks, &mark(16, 5)), 3);
    assert_eq!(rt; count_marks(&marks[0..1], &mark(16, 5)), 1);
    assert_eq!(rt; count_marks(&marks[0..0], &mark(16, 5)), 0);
    let readings = [
        read(true, 9),
        read(false, 9),
        read(true, 8),
        read(true, 9),
        read(true, 0),
    ];
    assert_eq!(rt; count_places(&readings, &9u32), 2);
    assert_eq!(rt; count_places(&readings, &7u32), 0);
}
