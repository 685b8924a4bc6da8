// A client of the group, which prints what it makes of what comes over the bus.
use crate::bus::{Answer, KEYS};
use collector::{Unclosed, Waiting};
use packet::Reader;
use refusal::SealerFault;
use sealer::{SipSealer, open};
use std::io;

#[derive(Drop)]
pub struct Client<'a, P> {
    rt: &'a P,
    sealer: SipSealer,
}

impl<'a, P: Print> Client<'a, P> {
    pub fn new(rt: &'a P) -> Result<Client<'a, P>, SealerFault> {
        let sealer = SipSealer::new(0, KEYS)?;
        Ok(Client { rt, sealer })
    }

    // Shows the bytes of a packet, and what they say.
    pub fn read(&self, bytes: &[u8]) -> io::Result<()> {
        self.show(bytes)?;
        match open(&self.sealer, Reader::Collector, bytes) {
            Ok(packet) => {
                let signer = packet.first.signer;
                let slot = packet.first.slot.0;
                let result = packet.first.command;
                println!(self.rt; "  accepted: replica {signer} answers {result} for slot {slot}")
            }
            Err(fault) => println!(self.rt; "  refused: {fault}"),
        }
    }

    fn show(&self, bytes: &[u8]) -> io::Result<()> {
        print!(self.rt; "  on the wire:")?;
        for &byte in bytes {
            print!(self.rt; " {byte:02x}")?;
        }
        println!(self.rt)
    }

    // Hands a replica's answer to the collector.
    pub fn hand_in(&self, waiting: &mut Waiting, answer: Answer) -> anyhow::Result<()> {
        let Answer {
            replica,
            slot,
            outcome,
        } = answer;
        println!(self.rt; "replica {replica} answers {outcome} for slot {}", slot.0)?;
        match waiting.add(&self.sealer, &answer.sealed(KEYS)?) {
            Ok(()) => println!(self.rt; "  the collector keeps it")?,
            Err(fault) => println!(self.rt; "  the collector refuses it: {fault}")?,
        }
        Ok(())
    }

    // Tries to close the collector, and has it back if that was too early.
    pub fn try_close(&self, waiting: Waiting) -> io::Result<Option<Waiting>> {
        match waiting.close() {
            Ok(closed) => {
                let slot = closed.slot().0;
                let result = closed.result();
                println!(self.rt; "  closed: the result of slot {slot} is {result}")?;
                Ok(None)
            }
            Err(Unclosed { waiting, fault }) => {
                println!(self.rt; "  not closed: {fault}")?;
                Ok(Some(waiting))
            }
        }
    }
}
