// What a client of a group sees: answers under seals on the bus, and a collector that closes on two equal ones.
#![tactic(auto)]

mod bus;
mod client;
mod collecting;
mod reading;

fn run(rt: &impl Print) -> anyhow::Result<()> {
    reading::read_answers(rt)?;
    println!(rt)?;
    collecting::collect_answers(rt)
}

fn main(rt: HostRuntime) -> anyhow::Result<()> {
    run(&rt)
}
