// The recorder: sixteen channels that take samples.
ghost use Rattle.std.specs.Prelude.{◌≡◌, ◌<◌};
ghost use Rattle.service.specs.Commands.{read_as};
ghost use Rattle.service.specs.Recorders.{Channels, RecorderLaws, channel_at, first_channels, mark_with_channel, recorder_mark, recorder_next, recorder_result, sample_of, sampled};

use crate::REFUSED;
use crate::commands::UnknownCommand;
use crate::marks::{Marked, mark_of, mark_with};
use crate::services::Service;

// The first byte of a sample's command.
const SAMPLE: u8 = 0x53;

// A sample, as a command states it.
#[derive(Clone, Copy, PartialEq, Eq, Debug)]
pub struct Sample {
    pub channel: u8,
    pub reading: u32,
}

impl TryFrom<u64> for Sample {
    type Error = UnknownCommand;

    ghost try_from_gives = { λ command r. r ≡ read_as sample_of command };

    fn try_from(command: u64) -> Result<Sample, UnknownCommand> {
        match command.to_be_bytes() {
            [SAMPLE, channel @ 0..=15, 0, 0, a, b, c, d] => Ok(Sample {
                channel,
                reading: u32::from_be_bytes([a, b, c, d]),
            }),
            _ => Err(UnknownCommand(command)),
        }
    }
}

// How many samples a channel has taken, and the reading of the last one.
#[repr(C)]
#[derive(Clone, Copy, PartialEq, Eq, Debug)]
pub struct Channel {
    pub samples: u32,
    pub latest: u32,
}

impl Marked for Channel {
    ghost add_to = { mark_with_channel };

    fn add_to(&self, mark: u64) -> u64 {
        let mark = mark_with(mark, u64::from(self.samples));
        mark_with(mark, u64::from(self.latest))
    }
}

// The state of a recorder is its channels, in order.
#[repr(C)]
#[derive(Drop)]
pub struct Recorder {
    channels: [Channel; 16],
}

impl Recorder {
    // A recorder that has taken no sample.
    #[tactic(auto, using(crate::proofs::Samples::recorder_laws))]
    pub fn new() -> Recorder
        ensures value { result.channels ≡ first_channels }
        ensures laws { RecorderLaws }
    {
        Recorder {
            channels: [Channel {
                samples: 0,
                latest: 0,
            }; 16],
        }
    }

    // A recorder in the state that a host kept.
    pub fn with_channels(channels: [Channel; 16]) -> Recorder
        ensures { result.channels ≡ channels }
    {
        Recorder { channels }
    }

    // The channel of this number, or none past the last.
    pub fn channel(&self, number: u8) -> Option<Channel>
        ensures { result ≡ channel_at self.now.channels number }
    {
        self.channels.get(usize::from(number)).copied()
    }

    // Takes a sample and answers the channel's new number, unless the channel is full.
    fn take(&mut self, sample: Sample) -> u64
        requires { sample.channel < 16 }
        ensures value { result ≡ (sampled self.old.channels sample).answer }
        ensures after { self.new.channels ≡ (sampled self.old.channels sample).after }
    {
        let channel = &mut self.channels[usize::from(sample.channel)];
        let Some(samples) = channel.samples.checked_add(1) else {
            return REFUSED;
        };
        *channel = Channel {
            samples,
            latest: sample.reading,
        };
        u64::from(samples)
    }
}

impl Service for Recorder {
    ghost State = { Channels };

    ghost state = { λ s. s.channels };

    ghost answer = { recorder_result };

    ghost next = { recorder_next };

    ghost marked = { recorder_mark };

    fn apply(&mut self, command: u64) -> u64 {
        match Sample::try_from(command) {
            Ok(sample) => self.take(sample),
            Err(_) => REFUSED,
        }
    }

    fn mark(&self) -> u64 {
        mark_of(&self.channels)
    }
}
