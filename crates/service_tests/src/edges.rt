// The services at their edges: each line of a table is a command and the answer to it.
use service::{Booking, Channel, REFUSED, Recorder, Service, UnknownCommand, apply_all};
use std::process::Abort;
use std::test::Fail;

fn answers<S: Service>(rt: &impl Abort, service: &mut S, lines: &[(u64, u64)]) {
    for &(command, answer) in lines {
        assert_eq!(rt; service.apply(command), answer, "to {command:#018x}");
    }
}

#[test]
fn a_recorder_takes_samples_alone(rt: HostRuntime) {
    let mut recorder = Recorder::new();
    answers(
        &rt,
        &mut recorder,
        &[
            // Two samples on the last channel, and one past it.
            (0x530F_0000_0000_0003, 1),
            (0x530F_0000_0000_0007, 2),
            (0x5310_0000_0000_0007, REFUSED),
            // A byte that has to be zero and is not, the other service's command, the empty command.
            (0x530F_0100_0000_0007, REFUSED),
            (0x530F_0001_0000_0007, REFUSED),
            (0x420F_0500_0000_0000, REFUSED),
            (0, REFUSED),
        ],
    );
    let last = Channel {
        samples: 2,
        latest: 7,
    };
    assert_eq!(rt; recorder.channel(15), Some(last));
    assert_eq!(rt; recorder.channel(16), None);
    assert_eq!(rt; recorder.mark(), 31 * 2 + 7);
}

#[test]
fn a_full_channel_takes_no_more(rt: HostRuntime) {
    let nearly = Channel {
        samples: u32::MAX - 1,
        latest: 5,
    };
    let mut recorder = Recorder::with_channels([nearly; 16]);
    answers(
        &rt,
        &mut recorder,
        &[
            (0x5303_0000_0000_0008, 0xFFFF_FFFF),
            (0x5303_0000_0000_0009, REFUSED),
            (0x5304_0000_0000_0009, 0xFFFF_FFFF),
        ],
    );
    let full = Channel {
        samples: u32::MAX,
        latest: 8,
    };
    assert_eq!(rt; recorder.channel(3), Some(full));
}

#[test]
fn a_place_is_booked_and_freed_by_its_holder(rt: HostRuntime) {
    let mut booking = Booking::new();
    answers(
        &rt,
        &mut booking,
        &[
            // The last place, booked once, freed by its holder alone, and booked again.
            (0x421F_0500_0000_0000, 1),
            (0x421F_0500_0000_0000, 0),
            (0x421F_0600_0000_0000, 0),
            (0x461F_0600_0000_0000, 0),
            (0x461F_0500_0000_0000, 1),
            (0x461F_0500_0000_0000, 0),
            (0x421F_FF00_0000_0000, 1),
            // Past the last place, nobody as the holder, a tail that is not zero, another kind.
            (0x4220_0500_0000_0000, REFUSED),
            (0x4200_0000_0000_0000, REFUSED),
            (0x461F_0000_0000_0000, REFUSED),
            (0x4200_0500_0000_0001, REFUSED),
            (0x461F_FF01_0000_0000, REFUSED),
            (0x4300_0500_0000_0000, REFUSED),
            (0, REFUSED),
        ],
    );
    assert_eq!(rt; booking.holder(31), Some(255));
    assert_eq!(rt; booking.holder(0), Some(0));
    assert_eq!(rt; booking.holder(32), None);
    assert_eq!(rt; booking.mark(), 255);
}

#[test]
fn marks_follow_the_order_of_channels_and_places(rt: HostRuntime) {
    let mut recorder = Recorder::new();
    assert_eq!(rt; recorder.mark(), 0);
    apply_all(&mut recorder, &[0x530E_0000_0000_0007]);
    assert_eq!(rt; recorder.mark(), 36_518);
    let mut booking = Booking::new();
    assert_eq!(rt; booking.mark(), 0);
    apply_all(
        &mut booking,
        &[0x421E_0500_0000_0000, 0x421F_0100_0000_0000],
    );
    assert_eq!(rt; booking.mark(), 156);
}

#[test]
fn an_unknown_command_is_shown_as_its_bytes(rt: HostRuntime) -> Result<(), Fail> {
    let shown = UnknownCommand(0x0310_0000_0000_0007).to_string(rt.alloc())?;
    assert_eq!(rt;
        shown.as_str(),
        "the service has no command 0x0310000000000007: the client wrote it wrongly, or meant another service"
    );
    Ok(())
}
