//! What a demonstration counts.
ghost use Rattle.std.specs.Prelude.{◌≡◌, ℕ, ◌+◌, ◌<◌, ◌^◌, OnOk};
ghost use Rattle.wumpus_run.specs.Demo.{IsFew, counted, no_reply};

use wu_ask::Answered;
use wu_script::Reply;

/// How many replies there were, how many of them accept, refuse and count, and the sum of the hits that were counted.
#[derive(Debug, Drop)]
pub struct Tally {
    pub commands: u64,
    pub oks: u64,
    pub refused: u64,
    pub counts: u64,
    pub hits: u128,
}

impl Tally {
    /// No reply yet.
    pub fn new() -> Tally
        ensures { result ≡ no_reply }
    {
        Tally {
            commands: 0,
            oks: 0,
            refused: 0,
            counts: 0,
            hits: 0,
        }
    }

    /// Counts the reply to an item, if it has one.
    pub fn count(&mut self, reply: &Option<Reply>)
        requires few { IsFew 4194304 self.old }
        ensures counted { self.new ≡ counted self.old reply.now }
        ensures few { (most : ℕ) → IsFew most self.old → IsFew (most + 1) self.new }
    {
        if let Some(reply) = reply {
            self.commands += 1;
            match reply {
                Reply::Ok => self.oks += 1,
                Reply::Refused(_) => self.refused += 1,
                Reply::Answered(Answered::Count { hits, .. }) => {
                    self.counts += 1;
                    self.hits += u128::from(*hits);
                }
                _ => {}
            }
        }
    }
}
