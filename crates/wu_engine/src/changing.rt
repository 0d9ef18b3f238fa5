//! What changes the index of an engine: events, flushes, and background work.
ghost use Rattle.std.specs.Prelude.{◌≡◌, ◌+◌, ◌<◌, ◌≤◌, ◌^◌, Ok, true, length, IfOk};
ghost use Rattle.wu_base.specs.declared.limits.TheConstants.{ADDRESSES_MAX, TEXT_MAX};
ghost use Rattle.wu_tree.specs.Steps.{IsEvent};
ghost use Rattle.wu_tree.specs.declared.events.Refusal.{Refusal};

use crate::engines::Engine;
use crate::renewing::{renew_frames, touched_by};
use crate::updating::follow;
use crate::verdicts::Verdict;
use wu_base::{Trouble, Worked};
use wu_outside::Store;
use wu_tree::{Event, effects_tell_files};

impl Engine {
    ghost use Rattle.wu_query.specs.States.{State};
    ghost use Rattle.wu_engine.specs.States.{after_event, flushed_state, step, worked_state};
    ghost use Rattle.wu_engine.specs.Reports.{worked_in};
    ghost use Rattle.wu_engine.specs.Stands.{leaves_store, taken_by, verdict_of};
    ghost use Rattle.wu_engine.specs.Calls.{AnswersOrEnds, IsSameEngine, KeepsFiles, Leads};
    ghost use Rattle.wu_engine.specs.Calls.{PutsDrawn, ReadsNothing, Steps};
    ghost use Rattle.wu_engine.specs.Changing.{BlamesParts, GivesAddresses, ReadsForUnits};
    ghost use Rattle.wu_engine.specs.Changing.{TellsIdle};
    ghost use Rattle.wu_engine.specs.declared.verdicts.Verdict.TheVariants.{Refused};
    ghost use Rattle.wu_engine.specs.Puts.{MayTryPut, MayTryPuts};
    ghost use Rattle.wu_engine.specs.Renewing.{LeavesFrames, touched_of};

    /// Applies an event, where `body` is the text that it gives to a file; other events give none.
    /// The event happens or is refused, and a refused event changes nothing in engine and store. A
    /// text that isn't empty is put into the store under the next blob's number. After an event
    /// that happened, memory is flushed where it is full: its live postings become a part, which is
    /// put into the store under the number after that. No other change of the store is tried, and
    /// nothing is read. The next address is at most ADDRESSES_MAX after it. Whatever it answers,
    /// the next address, the number of the next blob and that of the flushes don't fall.
    ///
    /// The body has at most TEXT_MAX bytes. The number of the next blob, with two added, and that
    /// of the flushes, with one, are below 2^63. The errors are a fault of the store and out of
    /// memory. Each ends the engine, and a trouble that ended it is answered again.
    pub fn update<D: Store>(
        &mut self,
        store: &mut D,
        event: &Event,
        body: &[u8],
    ) -> Result<Verdict, Trouble>
        requires event { IsEvent event.now }
        requires short { length body.now ≤ TEXT_MAX }
        requires room { self.old.space.next + taken_by event.now body.now ≤ ADDRESSES_MAX }
        requires blobs { self.old.parts.next_blob + 2 < 2 ^ 63 }
        requires flushes { self.old.parts.flushes + 1 < 2 ^ 63 }
        // The answer is the step's, and engine and store stand for the state after it.
        ensures step { Steps D.Store (λ s. verdict_of (step s event.now body.now))
            (λ s. after_event self.old.parts.flush_at s event.now body.now)
            self.old self.new store.old store.new result }
        // Addresses only grow, by those that the event takes at most, whatever the answer.
        ensures addresses { GivesAddresses (taken_by event.now body.now)
            self.old.space self.new.space }
        // What the store holds changes only at the two blobs that may be drawn, also where the call
        // fails.
        ensures drawn { PutsDrawn D.Store 2 self.old self.new store.old store.new }
        // At most two puts of these blobs are tried, and the store is not synced.
        ensures tried { MayTryPuts self.old.parts.next_blob (self.old.parts.next_blob + 2) 2
            (D.moments store.old) (D.moments store.new) }
        // No call of the store is made but for a text that isn't empty and for a flush.
        ensures untouched { IfOk result (λ verdict.
            leaves_store verdict event.now body.now self.old.parts ≡ true
            → (store.new ≡ store.old) × (self.new.parts.next_blob ≡ self.old.parts.next_blob)) }
        // A refused event leaves all of the engine.
        ensures refused { (refusal : Refusal) → result ≡ Ok (Refused refusal)
            → IsSameEngine self.old self.new }
        // Of the kept frames a refused event leaves all, another those of all users whom it doesn't
        // concern.
        ensures frames { IfOk result (λ verdict. LeavesFrames verdict self.new.tree
            (touched_of self.old.tree self.old.space.ranges event.now)
            self.old.frames self.new.frames) }
        // Nothing is read, and no blob is called damaged.
        ensures reads { ReadsNothing D.Store self.old store.old store.new result }
        // An engine that answers goes on, and a trouble ends it.
        ensures ends { AnswersOrEnds D.Store self.old self.new store.old store.new result }
    {
        let _untouched = &*store;
        if let Some(trouble) = self.ended {
            return Err(trouble);
        }
        self.ended = Some(Trouble::NoMemory);
        effects_tell_files(&self.tree);
        self.tree.keeps_the_rules();
        self.space.keeps_the_rules();
        let touched = touched_by(self.alloc, &self.tree, &self.space, event)?;
        match self.tree.apply(event)? {
            Ok(effect) => {
                let followed = follow(
                    &mut self.space,
                    &mut self.parts,
                    &mut self.files,
                    store,
                    effect,
                    body,
                );
                match followed {
                    Ok(()) => {
                        renew_frames(&mut self.frames, &self.tree, &self.space, touched);
                        self.ended = None;
                        Ok(Verdict::Made)
                    }
                    Err(trouble) => Err(self.end_with(trouble)),
                }
            }
            Err(refusal) => {
                self.ended = None;
                Ok(Verdict::Refused(refusal))
            }
        }
    }

    /// Makes a part of the live postings in memory, and puts it into the store under the next
    /// blob's number; memory is empty then. Where no posting in memory is live no part is made, no
    /// blob is drawn and the store is not touched. Nothing is read. Whatever it answers, the tree,
    /// the addresses, what is recorded of texts, the kept frames and the checkpoint's number stay
    /// as they are.
    ///
    /// The number of the next blob and that of the flushes, each with one added, are below 2^63.
    /// The errors are a fault of the store and out of memory. Each ends the engine, and a trouble
    /// that ended it is answered again.
    pub fn flush<D: Store>(&mut self, store: &mut D) -> Result<(), Trouble>
        requires blobs { self.old.parts.next_blob + 1 < 2 ^ 63 }
        requires flushes { self.old.parts.flushes + 1 < 2 ^ 63 }
        // Engine and store stand for the flushed state.
        ensures step { Leads D.Store flushed_state self.old self.new store.old store.new result }
        // Of the engine only the parts change.
        ensures same { KeepsFiles self.old self.new }
        // What the store holds changes only at the blob that may be drawn, also where the call
        // fails.
        ensures drawn { PutsDrawn D.Store 1 self.old self.new store.old store.new }
        // The only change that may be tried is that blob's put, and the store is not synced.
        ensures tried { MayTryPut self.old.parts.next_blob
            (D.moments store.old) (D.moments store.new) }
        // Where none is drawn no call of the store is made.
        ensures untouched { self.new.parts.next_blob ≡ self.old.parts.next_blob
            → store.new ≡ store.old }
        // Nothing is read, and no blob is called damaged.
        ensures reads { ReadsNothing D.Store self.old store.old store.new result }
        // An engine that answers goes on, and a trouble ends it.
        ensures ends { AnswersOrEnds D.Store self.old self.new store.old store.new result }
    {
        let _untouched = &*store;
        if let Some(trouble) = self.ended {
            return Err(trouble);
        }
        self.ended = Some(Trouble::NoMemory);
        match self.parts.flush(store, &self.space) {
            Ok(()) => {
                self.ended = None;
                Ok(())
            }
            Err(trouble) => Err(self.end_with(trouble)),
        }
    }

    /// Does up to `n` units of background work on the parts: each does the first term that is left
    /// of the job under way, or of the one that is named next. With its last term a job ends: what
    /// is left of its parts, if anything, is put into the store under the next blob's number, and
    /// stands in their place. It stops early only where there is nothing to do. It answers Idle
    /// exactly where no job is under way then and none is named, else Busy.
    ///
    /// Of the store only the blocks of these terms in the jobs' parts are read, each in one read.
    /// Whatever it answers, the tree, the addresses, what is recorded of texts, the kept frames and
    /// the checkpoint's number stay as they are. The number of the next blob, with `n` added, is
    /// below 2^63. The errors are a damaged part, a fault of the store, and out of memory. Each
    /// ends the engine, and a trouble that ended it is answered again.
    pub fn work<D: Store>(&mut self, store: &mut D, n: u32) -> Result<Worked, Trouble>
        requires blobs { self.old.parts.next_blob + n < 2 ^ 63 }
        // The answer is that of the state after the units, and engine and store stand for it.
        ensures step { Steps D.Store (λ s. worked_in (worked_state n s)) (worked_state n)
            self.old self.new store.old store.new result }
        // Idle comes exactly where there is nothing to do, and then there are few parts.
        ensures idle { TellsIdle self.new result }
        // Of the engine only the parts change.
        ensures same { KeepsFiles self.old self.new }
        // No flush is counted.
        ensures counted { self.new.parts.flushes ≡ self.old.parts.flushes }
        // What the store holds changes only at the blobs that may be drawn, also where the call
        // fails.
        ensures drawn { PutsDrawn D.Store n self.old self.new store.old store.new }
        // At most one put for each unit is tried, of these blobs, and the store is not synced.
        ensures tried { MayTryPuts self.old.parts.next_blob (self.old.parts.next_blob + n) n
            (D.moments store.old) (D.moments store.new) }
        // Only blocks of the units' terms are read.
        ensures reads { ReadsForUnits D.Store n self.old self.new store.old store.new result }
        // Only a part that is damaged is called so.
        ensures damaged { BlamesParts D.Store self.old store.old result }
        // An engine that answers goes on, and a trouble ends it.
        ensures ends { AnswersOrEnds D.Store self.old self.new store.old store.new result }
    {
        let _untouched = &*store;
        if let Some(trouble) = self.ended {
            return Err(trouble);
        }
        self.ended = Some(Trouble::NoMemory);
        match self.parts.work(store, &self.space, n) {
            Ok(worked) => {
                self.ended = None;
                Ok(worked)
            }
            Err(trouble) => Err(self.end_with(trouble)),
        }
    }
}
