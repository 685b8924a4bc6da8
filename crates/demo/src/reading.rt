// Three replicas answer for one slot. One answer is damaged on the way, and one is under the keys of another group.
use crate::bus::{Answer, KEYS, OTHER_KEYS};
use crate::client::Client;
use packet::Slot;

pub fn read_answers(rt: &impl Print) -> anyhow::Result<()> {
    let client = Client::new(rt)?;
    let answer = |replica| Answer {
        replica,
        slot: Slot(7),
        outcome: 42,
    };

    println!(rt; "1. A client reads what comes over the bus for slot 7.")?;
    println!(rt; "replica 0 answers 42")?;
    let good = answer(0).sealed(KEYS)?;
    client.read(&good)?;

    println!(rt; "replica 1 answers 42, and one bit is turned on the way")?;
    let mut damaged = answer(1).sealed(KEYS)?;
    damaged[21] ^= 1;
    client.read(&damaged)?;

    println!(rt; "replica 2 answers 42, under the keys of another group")?;
    client.read(&answer(2).sealed(OTHER_KEYS)?)?;

    println!(rt; "replica 0's answer again, with its last byte lost")?;
    client.read(&good[0..29])?;

    println!(rt; "replica 0's answer again, with a signer that there is not")?;
    let mut stranger = good;
    stranger[1] = 4;
    client.read(&stranger)?;
    Ok(())
}
