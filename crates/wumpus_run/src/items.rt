//! The script is read as it comes, and each of its items is answered in turn.
ghost use Rattle.std.specs.Prelude.{◌≡◌, ◌⊎◌, ℕ, ◌+◌, ◌<◌, ◌≤◌, ◌^◌, List, Option, None};
ghost use Rattle.std.specs.Prelude.{Some, Err, false, OnErr, OnOk, MatchBool};
ghost use Rattle.std.specs.Io.KnownBytes.{Appends};
ghost use Rattle.wu_base.specs.declared.limits.TheConstants.{INPUT_MAX};
ghost use Rattle.wu_base.specs.declared.troubles.Trouble.{Trouble};
ghost use Rattle.wu_outside.specs.Content.{Content};
ghost use Rattle.wu_outside.specs.Crash.{Moments};
ghost use Rattle.wu_outside.specs.Faults.{HasFaultCause};
ghost use Rattle.wu_outside.specs.Gains.{GainsPrefix};
ghost use Rattle.wu_outside.specs.Surviving.{IsLeft, Leaves, LeavesNow};
ghost use Rattle.wu_outside.specs.declared.ranges.ReadRange.{ReadRange};
ghost use Rattle.wu_script.specs.Commands.{Save};
ghost use Rattle.wu_script.specs.Items.{IsBeforeEnd};
ghost use Rattle.wu_script.specs.Said.{Operates};
ghost use Rattle.wu_image.specs.declared.roots.Root.{Root};
ghost use Rattle.wu_query.specs.States.{State};
ghost use Rattle.wu_engine.specs.Crashes.{IsImageOf};
ghost use Rattle.wu_engine.specs.Going.{HasBroken};
ghost use Rattle.wu_engine.specs.Stands.{Stands};
ghost use Rattle.wu_engine.specs.Earlier.{KeepsCheckpoint, LeavesEarlier};
ghost use Rattle.wu_engine.specs.Opening.{HasRoot, HoldsImage, IsOpen};
ghost use Rattle.wu_engine.specs.States.{rested_state, saved_state};
ghost use Rattle.wumpus_run.specs.Kept.{AddsDrawnFor, KeepsDrawn, KeepsEitherSave};
ghost use Rattle.wumpus_run.specs.Kept.{KeepsRootsCheckpoint, TouchesNoStray};
ghost use Rattle.wumpus_run.specs.Ended.{CallsBroken, IsOutcome, KeepsBlobs, OpensOnly, status_of};
ghost use Rattle.wumpus_run.specs.Ended.{status_of_fault, status_of_opening, status_of_saving};
ghost use Rattle.wumpus_run.specs.Ended.{status_of_trouble};
ghost use Rattle.wumpus_run.specs.Session.{FromImage, IsCounted, KeepsStrays, moment, UnlessTaken};
ghost use Rattle.wumpus_run.specs.Raised.{SavesOnce};
ghost use Rattle.wumpus_run.specs.Started.{IsStarted, settings_by};
ghost use Rattle.wumpus_run.specs.Strays.{AddsNoStray};
ghost use Rattle.wumpus_run.specs.Crashes.{left_to_next};
ghost use Rattle.wumpus_run.specs.Courses.{TakesCourse};

use crate::answering::answer;
use crate::sending::send;
use crate::statuses::{
    Status, status_of, status_of_fault, status_of_opening, status_of_saving, status_of_trouble,
};
use std::alloc::Global;
use wu_base::NoMemory;
use wu_engine::Engine;
use wu_options::Settings;
use wu_outside::{Fault, Sink, Source, Store, write_all};
use wu_script::{Item, Reader};

/// Answers the items of the script in turn, from what the store holds, and saves what they leave.
pub fn answer_script<I: Source, O: Sink, D: Store>(
    alloc: Global,
    settings: Settings,
    source: &mut I,
    sink: &mut O,
    store: &mut D,
) -> Status
    requires goes_on { I.ended source.old ≡ false }
    requires within { settings.max_input ≤ INPUT_MAX }
    ensures session { IsOutcome result (Some settings)
        (moment I.Source O.Sink D.Store source.old sink.old store.old)
        (moment I.Source O.Sink D.Store source.new sink.new store.new) }
    ensures course { FromImage (D.holds store.old) (λ s. TakesCourse s result (Some settings)
        (moment I.Source O.Sink D.Store source.old sink.old store.old)
        (moment I.Source O.Sink D.Store source.new sink.new store.new)) }
    ensures blobs { KeepsBlobs
        (moment I.Source O.Sink D.Store source.old sink.old store.old)
        (moment I.Source O.Sink D.Store source.new sink.new store.new) }
    ensures opened { OpensOnly result (Some settings)
        (moment I.Source O.Sink D.Store source.old sink.old store.old)
        (moment I.Source O.Sink D.Store source.new sink.new store.new) }
    ensures broken { CallsBroken result (D.holds store.old) }
{
    let mut reader = match Reader::new(alloc, settings.max_input) {
        Ok(reader) => reader,
        Err(NoMemory) => return Status::NoMemory,
    };
    let mut engine = match Engine::begin(alloc, store, u64::from(settings.flush_at)) {
        Ok(engine) => engine,
        Err(fault) => return status_of_opening(fault),
    };
    answer_items(alloc, source, sink, store, &mut reader, &mut engine)
}

/// Answers the items of the script in turn, with a reader and an engine that were just made, and saves what they leave.
fn answer_items<I: Source, O: Sink, D: Store>(
    alloc: Global,
    source: &mut I,
    sink: &mut O,
    store: &mut D,
    reader: &mut Reader,
    engine: &mut Engine,
) -> Status
    requires goes_on { I.ended source.old ≡ false }
    requires started { IsStarted reader.old engine.old (D.holds store.old) (D.moments store.old) }
    ensures session { IsOutcome result (Some (settings_by reader.old engine.old))
        (moment I.Source O.Sink D.Store source.old sink.old store.old)
        (moment I.Source O.Sink D.Store source.new sink.new store.new) }
    ensures course { (reads : Option (List ReadRange)) (moments : Option Moments)
        → IsOpen (D.holds store.old) reads (D.reads store.old) → Leaves moments (D.moments store.old) (IsLeft moments)
        → FromImage (D.holds store.old) (λ s. TakesCourse s result (Some (settings_by reader.old engine.old))
        (record (moment I.Source O.Sink D.Store source.old sink.old store.old) { reads = reads; moments = moments })
        (moment I.Source O.Sink D.Store source.new sink.new store.new)) }
    ensures earlier { (content : Content) → D.holds store.old ≡ Some content → (root : Root) → HasRoot content root
        → LeavesEarlier root.next_blob (D.holds store.old) (D.holds store.new) }
    ensures checkpoint { KeepsCheckpoint 0 (D.holds store.old) (D.holds store.new) }
    ensures strays { FromImage (D.holds store.old) (λ s. KeepsStrays s.layout (D.holds store.old) (D.holds store.new)) }
    ensures untaken { UnlessTaken (I.left source.old) (I.left source.new)
        ((D.holds store.new ≡ D.holds store.old) × (D.moments store.new ≡ D.moments store.old)) }
    ensures broken { (content : Content) → D.holds store.old ≡ Some content → (blob : ℕ) → result ≡ Status.Damaged blob
        → HasBroken content blob }
    ensures opened { (next : ℕ) → result ≡ Status.Spent next → ⊥ }
    ensures told { (trouble : Trouble) → engine.new.ended ≡ Some trouble → result ≡ status_of_trouble trouble }
    ensures met { result ≡ Status.StoreFault → engine.new.ended ≡ Some Trouble.StoreFault }
{
    let mut reply = Vec::new(alloc);
    'items: loop {
        let item = match reader.next(source) {
            Ok(item) => item,
            Err(end) => return status_of(end),
        };
        if is_end(&item) {
            return save(engine, store);
        }
        reply.clear();
        let rest = match answer(engine, store, item, &mut reply) {
            Ok(rest) => rest,
            Err(trouble) => return status_of_trouble(trouble),
        };
        match send(sink, engine, &mut reply, rest) {
            Ok(()) => {}
            Err(fault) => return status_of_fault(fault),
        }
    }
}

/// Saves what the items of the script left: how the session ends.
fn save<D: Store>(engine: &mut Engine, store: &mut D) -> Status
    requires goes_on { engine.old.ended ≡ None }
    requires blobs { engine.old.parts.next_blob + 2 < 2 ^ 63 }
    requires flushes { engine.old.parts.flushes + 1 < 2 ^ 63 }
    ensures image { (s : State) → Stands engine.old (D.holds store.old) s → result ≡ Status.Done
        → HoldsImage (D.holds store.new) (rested_state (saved_state s)) }
    ensures strays { TouchesNoStray engine.old (D.holds store.old) (D.holds store.new) }
    ensures puts { AddsDrawnFor (Operates Save) engine.old (D.holds store.old) (D.holds store.new) }
    ensures named { (s : State) → Stands engine.old (D.holds store.old) s → result ≡ Status.Done
        → AddsNoStray s.layout (D.holds store.old) (rested_state (saved_state s)).layout (D.holds store.new) }
    ensures survives { KeepsEitherSave engine.old (D.holds store.old) (D.moments store.old) (D.moments store.new) }
    ensures durable { (s : State) → Stands engine.old (D.holds store.old) s → result ≡ Status.Done
        → LeavesNow (D.moments store.new) (IsImageOf (left_to_next s)) }
    ensures order { result ≡ Status.Done → SavesOnce engine.old engine.new
        (D.holds store.old, D.moments store.old) (D.holds store.new, D.moments store.new) }
    ensures reads { D.reads store.new ≡ D.reads store.old }
    ensures earlier { KeepsDrawn engine.old (D.holds store.old) (D.holds store.new) }
    ensures checkpoint { KeepsRootsCheckpoint engine.old (D.holds store.old) (D.holds store.new) }
    ensures ends { (result ≡ Status.Done) ⊎ ((result ≡ Status.NoMemory) ⊎ (result ≡ Status.StoreFault)) }
    ensures told { (trouble : Trouble) → engine.new.ended ≡ Some trouble → result ≡ status_of_trouble trouble }
    ensures met { result ≡ Status.StoreFault → engine.new.ended ≡ Some Trouble.StoreFault }
    ensures store_fault { IsCounted Status.StoreFault result (D.faults store.old) (D.faults store.new) }
{
    status_of_saving(engine.save(store))
}

/// Writes a reply, once; after a fault the sink gained a prefix of it.
pub(crate) fn write_reply<O: Sink>(sink: &mut O, reply: &[u8]) -> Result<(), Fault>
    ensures ok { OnOk result (Appends (O.gained sink.old) (O.gained sink.new) reply.now) }
    ensures err { OnErr result (GainsPrefix (O.gained sink.old) (O.gained sink.new) reply.now) }
    ensures cause { HasFaultCause (O.faults sink.old) (O.faults sink.new) result }
{
    write_all(sink, reply)
}

/// Whether the script has ended.
pub(crate) fn is_end(item: &Item) -> bool
    ensures { MatchBool result (item.now ≡ Item.End) (IsBeforeEnd item.now) }
{
    match item {
        Item::End => true,
        _ => false,
    }
}
