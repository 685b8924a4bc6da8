// The record of one slot. All of it is flat: numbers, flags and arrays of these, so that a C or C++ program can hold it in
// its own memory. Where something may be missing an accessor answers an `Option`.
ghost use Rattle.std.specs.Prelude.{◌≡◌};
ghost use Rattle.slots.specs.Records.{no_votes, has, seal_of, with_vote, no_certificate, is_there, if_there, blank, order_of, with_order, with_prepare, with_commit, with_decision, dropped, all_prepared, all_committed, settled, confirmed};

use packet::View;
use proof::{active, backups};

// The seals of votes by signer, where `held`. A C++ host holds them, so the flags are no `Option`s; two arrays take 40 bytes, four
// places of a flag and a seal would take 64.
#[repr(C)]
#[derive(Clone, Copy)]
pub struct Votes {
    pub held: [bool; 4],
    pub seals: [u64; 4],
}

// A certificate: a view, a command and three seals. View 0 stands for none, since a C++ host can hold no `Option`.
#[repr(C)]
#[derive(Clone, Copy)]
pub struct Certificate {
    pub view: View,
    pub command: u64,
    pub seals: [u64; 3],
}

// The order accepted in the present view, where `ordered`, with its votes; the certificate of the latest view in which the
// slot was prepared; the certificate of the decision. `ordered` is a flag for a C++ host, as `held` is.
#[repr(C)]
#[derive(Clone, Copy)]
pub struct Record {
    pub ordered: bool,
    pub command: u64,
    pub seal: u64,
    pub prepares: Votes,
    pub commits: Votes,
    pub prepared: Certificate,
    pub decided: Certificate,
}

impl Votes {
    // Nobody's vote.
    pub(crate) fn none() -> Votes
        ensures { result ≡ no_votes }
    {
        Votes {
            held: [false; 4],
            seals: [0; 4],
        }
    }

    // Whether this signer's vote is held.
    pub(crate) fn has(&self, signer: u8) -> bool
        ensures { result ≡ has self.now signer }
    {
        self.held.get(usize::from(signer)).copied().unwrap_or(false)
    }

    // The seal of this signer's vote; 0 where there is none.
    pub(crate) fn seal_of(&self, signer: u8) -> u64
        ensures { result ≡ seal_of self.now signer }
    {
        self.seals.get(usize::from(signer)).copied().unwrap_or(0)
    }

    // Holds this signer's vote under a seal. There is no signer above 3, and nothing is held of one.
    pub(crate) fn hold(&mut self, signer: u8, seal: u64)
        ensures { self.new ≡ with_vote self.old signer seal }
    {
        let at = usize::from(signer);
        if at < 4 {
            self.held[at] = true;
            self.seals[at] = seal;
        }
    }
}

impl Certificate {
    // No certificate.
    pub(crate) fn none() -> Certificate
        ensures { result ≡ no_certificate }
    {
        Certificate {
            view: View(0),
            command: 0,
            seals: [0; 3],
        }
    }

    pub(crate) fn is_there(&self) -> bool
        ensures { result ≡ is_there self.now }
    {
        self.view != View(0)
    }

    // The certificate, if there is one.
    pub fn if_there(self) -> Option<Certificate>
        ensures { result ≡ if_there self }
    {
        self.is_there().then_some(self)
    }
}

impl Record {
    // The record of a slot of which nothing is held.
    pub(crate) fn blank() -> Record
        ensures { result ≡ blank }
    {
        Record {
            ordered: false,
            command: 0,
            seal: 0,
            prepares: Votes::none(),
            commits: Votes::none(),
            prepared: Certificate::none(),
            decided: Certificate::none(),
        }
    }

    // The command of the accepted order.
    pub fn order(&self) -> Option<u64>
        ensures { result ≡ order_of self.now }
    {
        self.ordered.then_some(self.command)
    }

    // Accepts an order of this command under this seal.
    pub(crate) fn accept(&mut self, command: u64, seal: u64)
        ensures { self.new ≡ with_order self.old command seal }
    {
        self.ordered = true;
        self.command = command;
        self.seal = seal;
    }

    // Drops what belongs to a view: order and votes. Certificates stay.
    pub(crate) fn drop_view(&mut self)
        ensures { self.new ≡ dropped self.old }
    {
        *self = Record {
            prepared: self.prepared,
            decided: self.decided,
            ..Record::blank()
        };
    }

    // Whether both prepares of this view are held.
    pub(crate) fn is_prepared(&self, view: View) -> bool
        ensures { result ≡ all_prepared view.0 self.now }
    {
        backups(view)
            .iter()
            .all(|signer| self.prepares.has(*signer))
    }

    fn is_committed(&self, view: View) -> bool
        ensures { result ≡ all_committed view.0 self.now }
    {
        active(view).iter().all(|signer| self.commits.has(*signer))
    }

    // Decides the slot once all three commits of this view are held. The first decision stays.
    pub(crate) fn settle(&mut self, view: View)
        ensures { self.new ≡ settled view.0 self.old }
    {
        if !self.decided.is_there() && self.is_committed(view) {
            self.decided = Certificate {
                view,
                command: self.command,
                seals: active(view).map(|signer| self.commits.seal_of(signer)),
            };
        }
    }

    // Keeps the certificate of this view, in which the slot is prepared now, and counts the own commit.
    pub(crate) fn confirm(&mut self, own: u8, view: View, seal: u64)
        ensures { self.new ≡ confirmed own view.0 seal self.old }
    {
        let [second, third] = backups(view).map(|signer| self.prepares.seal_of(signer));
        self.prepared = Certificate {
            view,
            command: self.command,
            seals: [self.seal, second, third],
        };
        self.commits.hold(own, seal);
        self.settle(view);
    }
}
