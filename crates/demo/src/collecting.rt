// Three replicas carry out the same commands on services of their own. One of them lies to the client, whose collector closes
// on the two equal answers.
use crate::bus::Answer;
use crate::client::Client;
use anyhow::{bail, ensure};
use collector::Waiting;
use packet::Slot;
use service::{Booking, Recorder, Service};

// One sample with reading 7 on channel 15.
const SAMPLE: u64 = 0x530F_0000_0000_0007;

// Place 30 booked for holder 5.
const BOOKING: u64 = 0x421E_0500_0000_0000;

// Three replicas' services carry out the command of a slot, and each replica has its answer.
fn answers<V: Service>(services: &mut [V; 3], slot: Slot, command: u64) -> [Answer; 3] {
    let mut answers = [0, 1, 2].map(|replica| Answer {
        replica,
        slot,
        outcome: 0,
    });
    for (answer, service) in answers.iter_mut().zip(services) {
        answer.outcome = service.apply(command);
    }
    answers
}

// Three replicas answer, and the second lies: the collector has its result once the third has answered.
fn collect(rt: &impl Print, answers: [Answer; 3]) -> anyhow::Result<()> {
    let client = Client::new(rt)?;
    let [first, second, third] = answers;
    let mut waiting = Waiting::new(first.slot)?;
    let lie = Answer {
        outcome: second.outcome.wrapping_add(10),
        ..second
    };
    let astray = Answer {
        slot: Slot(99),
        ..third
    };
    client.hand_in(&mut waiting, first)?;
    client.hand_in(&mut waiting, first)?;
    client.hand_in(&mut waiting, lie)?;
    let Some(mut waiting) = client.try_close(waiting)? else {
        bail!("closed on two unlike answers");
    };
    client.hand_in(&mut waiting, second)?;
    client.hand_in(&mut waiting, astray)?;
    client.hand_in(&mut waiting, third)?;
    ensure!(
        client.try_close(waiting)?.is_none(),
        "not closed on two equal answers"
    );
    Ok(())
}

pub fn collect_answers(rt: &impl Print) -> anyhow::Result<()> {
    println!(rt; "2. Three recorders take a sample as slot 1; replica 1 lies about it.")?;
    let mut recorders = [Recorder::new(), Recorder::new(), Recorder::new()];
    let samples = answers(&mut recorders, Slot(1), SAMPLE);
    println!(rt; "each recorder's mark is now {}", recorders[0].mark())?;
    collect(rt, samples)?;

    println!(rt)?;
    println!(rt;
        "3. Three booking services book place 30 for holder 5 as slot 2; replica 1 lies again."
    )?;
    let mut bookings = [Booking::new(), Booking::new(), Booking::new()];
    let booked = answers(&mut bookings, Slot(2), BOOKING);
    println!(rt; "each booking service's mark is now {}", bookings[0].mark())?;
    collect(rt, booked)
}
