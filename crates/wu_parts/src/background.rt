//! The background work on the parts, a unit at a time.
ghost use Rattle.std.specs.Prelude.{◌≡◌, ◌≢◌, ℕ, ◌+◌, ◌-◌, ◌<◌, ◌≤◌, ◌^◌, Bool, List, Option, None, IfOk, IfErr, OnErr, OnOk, option_map};
ghost use Rattle.wu_base.specs.declared.reports.Worked.TheVariants.{Idle as NothingLeft};
ghost use Rattle.wu_base.specs.declared.troubles.Trouble.TheVariants.{Damaged, NoMemory as RanOutOfMemory};
ghost use Rattle.wu_layout.specs.Invariants.{IsLayoutOf};
ghost use Rattle.wu_layout.specs.Layouts.{Layout, Text, ranges_by_number};
ghost use Rattle.wu_layout.specs.Steps.{is_idle, work as units_done};
ghost use Rattle.wu_outside.specs.Content.{MayDo, with_blob};
ghost use Rattle.wu_outside.specs.Crash.{Put, try_change};
ghost use Rattle.wu_parts.specs.Causes.{IsStoreCause};
ghost use Rattle.wu_parts.specs.StoredParts.{IsKeptJob, running_at};
ghost use Rattle.wu_parts.specs.UnitsOfParts.{EndsJob, FindsJob, IsStep, IsUnit, Replaces, StopsStep, StopsUnit};
ghost use Rattle.wu_parts.specs.Working.{AreFew, ChangesParts, DoesWork, GivesUp, MayChange, StopsWork, Tells, answer_of, is_idle as is_idle_by};

use crate::parts::Parts;
use crate::working::{Running, next_job, start, take_out};
use crate::writing::put_bytes;
use wu_base::{ADDRESSES_MAX, NoMemory, Trouble, Worked};
use wu_job::Progress;
use wu_outside::Store;
use wu_space::Space;

impl Parts {
    /// Does up to `n` units of background work: each does the first term that is left of the job under way, or
    /// of the one that is named next. Two neighbours of equal generations are merged, the leftmost first; where
    /// there are none, the leftmost part is written anew of which at most half is live. The postings that were
    /// dead when a job began are dropped; what is left of its parts takes their place. It stops early only where
    /// there is nothing to do, and answers whether there is more. The number of the next blob, with `n` added, is
    /// below 2^63, and the next address of `space` is at most 2^47.
    ///
    /// Of the store only the blocks of these terms in the jobs' parts are read. Errors are out of memory, after which
    /// the parts are only dropped; a fault of the store, only where it had one in this call; and a damaged part, of
    /// which the unit that failed read a block: it isn't the part that its directory tells, or an address that it has
    /// of one term is another term's too. In the second case it isn't that part where the lists that the job had made
    /// are right. After a fault or damage the units before stand, and the job of the one that failed is given up: it
    /// begins anew where it is named again.
    pub fn work<D: Store>(
        &mut self,
        store: &mut D,
        space: &Space,
        n: u32,
    ) -> Result<Worked, Trouble>
        requires blob { self.old.next_blob + n < 2 ^ 63 }
        requires space { space.now.next ≤ ADDRESSES_MAX }
        ensures answer { IfOk result (λ worked. worked ≡ answer_of (is_idle_by space.now.ranges self.new)) }
        ensures units { OnOk result (DoesWork space.now.ranges n self.old self.new (D.holds store.old, D.moments store.old)
            (D.holds store.new, D.moments store.new) (D.reads store.old) (D.reads store.new)) }
        ensures changes { ChangesParts n self.old self.new }
        ensures few { IfOk result (λ worked. worked ≡ NothingLeft → AreFew space.now.ranges self.new) }

        // Where the store tells what it holds, and that is of a layout, the units are those of the layout.
        ensures layout { IfOk result (λ worked. (is_file : ℕ → Bool) (text_of : ℕ → Text) (layout : Layout)
            → IsLayoutOf is_file text_of layout → space.now.ranges ≡ ranges_by_number layout.files
            → Tells (D.holds store.old) self.old layout
            → (worked ≡ answer_of (is_idle (units_done n layout))) × Tells (D.holds store.new) self.new (units_done n layout)) }
        ensures undamaged { IfErr result (λ trouble. (is_file : ℕ → Bool) (text_of : ℕ → Text) (layout : Layout)
            → IsLayoutOf is_file text_of layout → Tells (D.holds store.old) self.old layout → (blob : ℕ) → trouble ≢ Damaged blob) }

        // Whatever is answered, only blobs of the numbers that were drawn may differ, and no more puts are tried than such numbers.
        ensures elsewhere { MayChange with_blob self.old.next_blob self.new.next_blob (self.new.next_blob - self.old.next_blob)
            (D.holds store.old) (D.holds store.new) }
        ensures tried { MayChange (λ blob written. try_change (Put blob) (with_blob blob written)) self.old.next_blob self.new.next_blob
            (self.new.next_blob - self.old.next_blob) (D.moments store.old) (D.moments store.new) }
        ensures calm { OnOk result (D.faults store.new ≡ D.faults store.old) }
        ensures stops { IfErr result (StopsWork space.now.ranges n self.old (D.holds store.old, D.moments store.old)
            (D.faults store.old) (D.faults store.new) (D.reads store.old) (D.reads store.new)) }
        ensures reached { IfErr result (λ trouble. trouble ≢ RanOutOfMemory
            → GivesUp space.now.ranges n self.old self.new (D.holds store.old, D.moments store.old)) }
    {
        self.units(store, space, n)?;
        Ok(self.answer(space))
    }

    /// Does up to `n` units of background work, fewer only where there is no more to do.
    fn units<D: Store>(&mut self, store: &mut D, space: &Space, n: u32) -> Result<(), Trouble>
        requires blob { self.old.next_blob + n < 2 ^ 63 }
        requires space { space.now.next ≤ ADDRESSES_MAX }
        ensures units { OnOk result (DoesWork space.now.ranges n self.old self.new (D.holds store.old, D.moments store.old)
            (D.holds store.new, D.moments store.new) (D.reads store.old) (D.reads store.new)) }
        ensures changes { OnErr result (ChangesParts n self.old self.new) }
        ensures elsewhere { MayChange with_blob self.old.next_blob self.new.next_blob (self.new.next_blob - self.old.next_blob)
            (D.holds store.old) (D.holds store.new) }
        ensures tried { MayChange (λ blob written. try_change (Put blob) (with_blob blob written)) self.old.next_blob self.new.next_blob
            (self.new.next_blob - self.old.next_blob) (D.moments store.old) (D.moments store.new) }
        ensures calm { OnOk result (D.faults store.new ≡ D.faults store.old) }
        ensures stops { IfErr result (StopsWork space.now.ranges n self.old (D.holds store.old, D.moments store.old)
            (D.faults store.old) (D.faults store.new) (D.reads store.old) (D.reads store.new)) }
        ensures reached { IfErr result (λ trouble. trouble ≢ RanOutOfMemory
            → GivesUp space.now.ranges n self.old self.new (D.holds store.old, D.moments store.old)) }
    {
        for _ in 0..n {
            if !self.unit(store, space)? {
                return Ok(());
            }
        }
        Ok(())
    }

    /// Whether there is background work to do.
    fn answer(&self, space: &Space) -> Worked
        ensures answer { result ≡ answer_of (is_idle_by space.now.ranges self.now) }
        ensures few { result ≡ NothingLeft → AreFew space.now.ranges self.now }
    {
        if self.job.is_none() && next_job(self.parts.as_slice(), space).is_none() {
            Worked::Idle
        } else {
            Worked::Busy
        }
    }

    /// Does a unit of background work, and answers whether there was one to do.
    fn unit<D: Store>(&mut self, store: &mut D, space: &Space) -> Result<bool, Trouble>
        requires blob { self.old.next_blob < 2 ^ 63 }
        requires space { space.now.next ≤ ADDRESSES_MAX }
        ensures done { IfOk result (λ done. IsUnit done space.now.ranges self.old self.new (D.holds store.old, D.moments store.old)
            (D.holds store.new, D.moments store.new) (D.reads store.old) (D.reads store.new)) }
        ensures changes { OnErr result (ChangesParts 1 self.old self.new) }
        ensures elsewhere { (written : Option (List ℕ))
            × MayDo (with_blob self.old.next_blob written) (D.holds store.old) (D.holds store.new) }
        ensures tried { (written : Option (List ℕ))
            × MayDo (try_change (Put self.old.next_blob) (with_blob self.old.next_blob written))
            (D.moments store.old) (D.moments store.new) }
        ensures undrawn { self.new.next_blob ≡ self.old.next_blob
            → (D.holds store.new ≡ D.holds store.old) × (D.moments store.new ≡ D.moments store.old) }
        ensures calm { OnOk result (D.faults store.new ≡ D.faults store.old) }
        ensures stops { IfErr result (StopsUnit space.now.ranges self.old (D.holds store.old) (D.faults store.old)
            (D.faults store.new) (D.reads store.old) (D.reads store.new)) }
        ensures stands { IfErr result (λ trouble. trouble ≢ RanOutOfMemory
            → self.new ≡ record self.old { job = None; next_blob = self.new.next_blob }) }
    {
        match self.take_job(space)? {
            Some(running) => {
                self.step(store, running)?;
                Ok(true)
            }
            None => Ok(false),
        }
    }

    /// Takes out the job that is under way, or starts the one that is named next, where there is one.
    fn take_job(&mut self, space: &Space) -> Result<Option<Running>, NoMemory>
        requires space { space.now.next ≤ ADDRESSES_MAX }
        ensures job { IfOk result (FindsJob space.now.ranges self.old) }
        ensures others { self.new ≡ record self.old { job = None } }
    {
        match self.job.take() {
            Some(running) => Ok(Some(running)),
            None => match next_job(self.parts.as_slice(), space) {
                Some(next) => {
                    let running = start(self.alloc, self.parts.as_slice(), next, space)?;
                    Ok(Some(running))
                }
                None => Ok(None),
            },
        }
    }

    /// Does the first term that is left of the job, and goes on with it, or puts what it made in place of its parts.
    fn step<D: Store>(&mut self, store: &mut D, mut running: Running) -> Result<(), Trouble>
        requires blob { self.old.next_blob < 2 ^ 63 }
        requires job { IsKeptJob self.old.parts self.old.directories running }
        requires none { self.old.job ≡ None }
        ensures done { OnOk result (IsStep (running_at running) self.old self.new (D.holds store.old, D.moments store.old)
            (D.holds store.new, D.moments store.new) (D.reads store.old) (D.reads store.new)) }
        ensures changes { OnErr result (ChangesParts 1 self.old self.new) }
        ensures elsewhere { (written : Option (List ℕ))
            × MayDo (with_blob self.old.next_blob written) (D.holds store.old) (D.holds store.new) }
        ensures tried { (written : Option (List ℕ))
            × MayDo (try_change (Put self.old.next_blob) (with_blob self.old.next_blob written))
            (D.moments store.old) (D.moments store.new) }
        ensures undrawn { self.new.next_blob ≡ self.old.next_blob
            → (D.holds store.new ≡ D.holds store.old) × (D.moments store.new ≡ D.moments store.old) }
        ensures calm { OnOk result (D.faults store.new ≡ D.faults store.old) }
        ensures stops { IfErr result (StopsStep (running_at running) (D.holds store.old) (D.faults store.old)
            (D.faults store.new) (D.reads store.old) (D.reads store.new)) }
        ensures stands { IfErr result (λ trouble. trouble ≢ RanOutOfMemory
            → self.new ≡ record self.old { next_blob = self.new.next_blob }) }
    {
        match running.job.step(store)? {
            Progress::More => {
                self.job = Some(running);
                Ok(())
            }
            Progress::Done(made) => {
                running.job.stays_within_its_parts();
                Ok(self.end(store, running.place, running.count, made)?)
            }
        }
    }

    /// Puts the part with these bytes, where there are some, in place of so many parts from the place on.
    fn end<D: Store>(
        &mut self,
        store: &mut D,
        place: usize,
        count: usize,
        made: Option<Vec<u8>>,
    ) -> Result<(), Trouble>
        requires blob { self.old.next_blob < 2 ^ 63 }
        requires job { EndsJob self.old.parts self.old.directories place count (option_map (λ bytes. bytes.items) made) }
        requires none { self.old.job ≡ None }
        ensures done { OnOk result (Replaces place count (option_map (λ bytes. bytes.items) made) self.old self.new
            (D.holds store.old, D.moments store.old) (D.holds store.new, D.moments store.new)) }
        ensures changes { OnErr result (ChangesParts 1 self.old self.new) }
        ensures elsewhere { (written : Option (List ℕ))
            × MayDo (with_blob self.old.next_blob written) (D.holds store.old) (D.holds store.new) }
        ensures tried { (written : Option (List ℕ))
            × MayDo (try_change (Put self.old.next_blob) (with_blob self.old.next_blob written))
            (D.moments store.old) (D.moments store.new) }
        ensures undrawn { self.new.next_blob ≡ self.old.next_blob
            → (D.holds store.new ≡ D.holds store.old) × (D.moments store.new ≡ D.moments store.old) }
        ensures unread { D.reads store.new ≡ D.reads store.old }
        ensures calm { OnOk result (D.faults store.new ≡ D.faults store.old) }
        ensures cause { IfErr result (IsStoreCause (D.faults store.old) (D.faults store.new)) }
        ensures stands { IfErr result (λ trouble. trouble ≢ RanOutOfMemory
            → self.new ≡ record self.old { next_blob = self.new.next_blob }) }
    {
        let _untouched = &*store;
        match made {
            None => Ok(take_out(&mut self.parts, &mut self.stale, place, count)?),
            Some(bytes) => {
                let blob = self.next_blob;
                self.next_blob = blob + 1;
                let part = put_bytes(self.alloc, store, blob, &bytes)?;
                take_out(&mut self.parts, &mut self.stale, place, count)?;
                self.parts.insert(place, part)?;
                Ok(())
            }
        }
    }
}
