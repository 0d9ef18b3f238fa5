//! What is asked of an engine.
ghost use Rattle.std.specs.Prelude.{◌≡◌, Option, Some, Ok, Err, length, IfOk, IfErr, OnOk};
ghost use Rattle.wu_outside.specs.Content.{Content};
ghost use Rattle.wu_outside.specs.Reading.{OnlyReads};
ghost use Rattle.wu_space.specs.Addresses.{live_total};
ghost use Rattle.wu_parts.specs.Contents.{stored_in};
ghost use Rattle.wu_ask.specs.Questions.{question_of, IsSoundAsk};
ghost use Rattle.wu_base.specs.declared.troubles.Trouble.{Trouble};

use crate::engines::Engine;
use wu_ask::{Answered, Query};
use wu_base::{Stat, Trouble};
use wu_outside::Store;
use wu_query::answered;

impl Engine {
    ghost use Rattle.wu_query.specs.States.{State};
    ghost use Rattle.wu_query.specs.View.{view_of};
    ghost use Rattle.wu_query.specs.Answer.{answer};
    ghost use Rattle.wu_engine.specs.Reports.{stat_of};
    ghost use Rattle.wu_engine.specs.Stands.{Stands};
    ghost use Rattle.wu_engine.specs.Answering.{BlamesAsked, KeepsIndex, ReadsForQuestion};
    ghost use Rattle.wu_engine.specs.Calls.{AnswersOrEnds};
    ghost use Rattle.wu_frames.specs.UserFrames.{HasAsked};

    /// Answers a user's query from the index: over her view alone, whatever other files there are.
    /// The store is only read: first those blocks of the query's terms that her frames need and
    /// that aren't kept, and then texts: where a find shows lines, those of the files of which it
    /// shows one, and for an export those of all files of her view. Whatever it answers, nothing of
    /// the engine changes but which blocks and frames it keeps, and the trouble that ended it.
    ///
    /// A find, a rank, `terms`, `top` and `weighed` ask for at most K_MAX; a rank and a `weighed`
    /// have 1 to RANK_WORDS_MAX words, a phrase a word and a window an address at least. The errors
    /// are a damaged part or text that was read, a fault of the store, and out of memory. Each ends
    /// the engine, and a trouble that ended it is answered again.
    pub fn query<D: Store>(&mut self, store: &mut D, query: &Query) -> Result<Answered, Trouble>
        requires { IsSoundAsk query.now.ask }
        // The answer is the written one over her view, and engine and store stand for the same
        // state.
        ensures answer { (s : State) → Stands self.old (D.holds store.old) s
            → IfOk result (λ answered.
            (answered ≡ answer (view_of s query.now.uid) (question_of query.now.ask))
            × Stands self.new (D.holds store.new) s) }
        // The index stays, whatever the answer.
        ensures same { KeepsIndex self.old self.new }
        // Her frames are the first that are kept then, and those of the others are as they were, as
        // far as there is room.
        ensures frames { OnOk result (HasAsked query.now.uid self.old.frames self.new.frames) }
        // The store is only read.
        ensures store { OnlyReads D.Store store.old store.new result }
        // Only blocks that her frames need are read, and then texts of which a line is shown, or
        // which are exported.
        ensures reads { ReadsForQuestion D.Store query.now.uid (question_of query.now.ask)
            self.old self.new store.old store.new result }
        // Only a blob that this query needs, and that is damaged, is called so.
        ensures damaged { BlamesAsked D.Store query.now.uid (question_of query.now.ask)
            self.old store.old store.new result }
        // An engine that answers goes on, and a trouble ends it.
        ensures ends { AnswersOrEnds D.Store self.old self.new store.old store.new result }
    {
        let _untouched = &*store;
        if let Some(trouble) = self.ended {
            return Err(trouble);
        }
        self.ended = Some(Trouble::NoMemory);
        match answered(
            self.alloc,
            store,
            &self.tree,
            &self.space,
            &mut self.parts,
            &self.files,
            &mut self.frames,
            query,
        ) {
            Ok(answered) => {
                self.ended = None;
                Ok(answered)
            }
            Err(trouble) => Err(self.end_with(trouble)),
        }
    }

    /// How many regular files there are, addresses in their live ranges, postings in memory and
    /// parts, those of texts that are gone too, and parts. Takes no memory, and asks no store. It
    /// answers a trouble only where that had ended the engine.
    pub fn stat(&self) -> Result<Stat, Trouble>
        ensures stat { (holds : Option Content) (s : State) → Stands self.now holds s
            → result ≡ Ok (stat_of s) }
        ensures told { IfOk result (λ stat. stat ≡ record {
          files = length self.now.files.entries;
          live = live_total self.now.space.ranges;
          stored = stored_in self.now.parts;
          parts = length self.now.parts.parts;
        }) }
        ensures ends { IfErr result (λ trouble. self.now.ended ≡ Some trouble) }
        ensures again { (trouble : Trouble) → self.now.ended ≡ Some trouble → result ≡ Err trouble }
    {
        match self.ended {
            Some(trouble) => Err(trouble),
            None => Ok(Stat {
                files: self.files.len() as u64,
                live: self.space.live_total(),
                stored: self.parts.stored(),
                parts: self.parts.count(),
            }),
        }
    }
}
