//! An item of the script is answered by the engine.
ghost use Rattle.std.specs.Prelude.{◌≡◌, ◌≢◌, ◌⊎◌, ℕ, ◌+◌, ◌<◌, ◌≤◌, ◌^◌, ◌++◌, true, None, Option, Some};
ghost use Rattle.std.specs.Prelude.{Err, length, IfErr, IfNone, IfOk, IfSome, OnOk};
ghost use Rattle.wu_base.specs.declared.limits.TheConstants.{ADDRESSES_MAX, TEXT_MAX, WORK_MAX};
ghost use Rattle.wu_base.specs.declared.troubles.Trouble.TheVariants.{Damaged};
ghost use Rattle.wu_outside.specs.Content.{Content};
ghost use Rattle.wu_outside.specs.Surviving.{LeavesNow};
ghost use Rattle.wu_ask.specs.Questions.{question_of, IsSoundAsk};
ghost use Rattle.wu_tree.specs.Steps.{IsEvent};
ghost use Rattle.wu_script.specs.Commands.{Flush, Save, Stat, Work};
ghost use Rattle.wu_script.specs.Said.{Asks, Happens, IsSoundItem, Operates, said_by, tokens_given};
ghost use Rattle.wu_query.specs.Reads.{AreTexts, ReadsForQuery, texts_read};
ghost use Rattle.wu_query.specs.States.{State};
ghost use Rattle.wu_engine.specs.Causes.{HasTroubleCause};
ghost use Rattle.wu_engine.specs.Calls.{BlamesBroken, LeavesLast, StillGoes};
ghost use Rattle.wu_engine.specs.Crashes.{IsImageOf};
ghost use Rattle.wu_engine.specs.Stands.{KeepsOthers, Stands};
ghost use Rattle.wumpus_run.specs.Crashes.{left_to_next};
ghost use Rattle.wumpus_run.specs.Kept.{AddsDrawnFor, BlamesNone, KeepsDrawn, KeepsEitherSave};
ghost use Rattle.wumpus_run.specs.Kept.{KeepsRootsCheckpoint, KeepsSaves, NamesAll, ReadsFor, RepliesTo};
ghost use Rattle.wumpus_run.specs.Kept.{SavesFor, StaysDrawn, TouchesNoStray};
ghost use Rattle.wumpus_run.specs.Raised.{IsRaised, PutsAtMost, SavesOnce, is_unasked, leaves_alone};
ghost use Rattle.wumpus_run.specs.Replies.{after, reply_to, said_bytes, verdict_reply};
ghost use Rattle.wumpus_run.specs.Rests.{rest_bytes};

use crate::sending::{Rest, begin_paths};
use wu_ask::{Ask, Query};
use wu_base::{NoMemory, Trouble, Uid};
use wu_engine::{Engine, Verdict};
use wu_outside::Store;
use wu_script::{Command, Item, Reply, Why, move_reply};
use wu_tree::Event;

/// Appends the bytes of the item's reply, if it has one: what [`reply_to`] answers, and under the
/// same conditions. Of the reply to `paths` that is the first line alone, and it says what is to
/// come.
pub fn answer<D: Store>(
    engine: &mut Engine,
    store: &mut D,
    item: Item,
    out: &mut Vec<u8>,
) -> Result<Rest, Trouble>
    requires sound { IsSoundItem item }
    requires goes_on { engine.old.ended ≡ None }
    requires room { engine.old.space.next + tokens_given (said_by item) ≤ ADDRESSES_MAX }
    requires blobs { engine.old.parts.next_blob + WORK_MAX < 2 ^ 63 }
    requires flushes { engine.old.parts.flushes + 1 < 2 ^ 63 }
    ensures answer { (s : State) → Stands engine.old (D.holds store.old) s → IfOk result (λ rest.
        (out.new.items ++ rest_bytes engine.new rest ≡ out.old.items ++ said_bytes s (said_by item))
        × Stands engine.new (D.holds store.new) (after engine.old.parts.flush_at s (said_by item))) }
    ensures named { NamesAll (said_by item) engine.old (D.holds store.old) (D.holds store.new) result }
    ensures strays { TouchesNoStray engine.old (D.holds store.old) (D.holds store.new) }
    ensures puts { AddsDrawnFor (said_by item) engine.old (D.holds store.old) (D.holds store.new) }
    ensures permitted { ReadsFor (said_by item) engine.old (D.holds store.old) (D.reads store.old) (D.reads store.new) }
    ensures survives { KeepsSaves (said_by item) engine.old (D.holds store.old) (D.moments store.old) (D.moments store.new) }
    ensures durable { SavesFor (said_by item) engine.old (D.holds store.old) (D.moments store.old) (D.moments store.new) result }
    ensures unasked { is_unasked (said_by item) ≡ true → (engine.new ≡ engine.old) × (store.new ≡ store.old) }
    ensures earlier { KeepsDrawn engine.old (D.holds store.old) (D.holds store.new) }
    ensures checkpoint { KeepsRootsCheckpoint engine.old (D.holds store.old) (D.holds store.new) }
    ensures rooted { OnOk result (StaysDrawn engine.old engine.new (D.holds store.old) (D.holds store.new)) }
    ensures leaves { OnOk result (IsRaised engine.old engine.new (said_by item)) }
    ensures goes { StillGoes engine.old engine.new (D.holds store.old) (D.holds store.new) result }
    ensures broken { BlamesBroken engine.old (D.holds store.old) result }
    ensures ends { IfErr result (λ trouble. (engine.new.ended ≡ Some trouble)
        ⊎ ((trouble ≡ Trouble.NoMemory) × (engine.new.ended ≡ None))) }
    ensures cause { HasTroubleCause engine.old.ended (D.faults store.old) (D.faults store.new) result }
    ensures damaged { BlamesNone engine.old (D.holds store.old) result }
{
    match lister_of(&item) {
        Some(uid) => begin_paths(engine, uid, out),
        None => match reply_to(engine, store, item)? {
            Some(reply) => {
                move_reply(out, reply)?;
                Ok(Rest::Nothing)
            }
            None => Ok(Rest::Nothing),
        },
    }
}

/// The user who asks for her paths, where the item is that.
fn lister_of(item: &Item) -> Option<Uid>
    ensures asks { IfSome result (λ uid.
        item.now ≡ Item.Command (Command.Ask (record { uid = uid; ask = Ask.Paths }))) }
    ensures other { IfNone result ((uid : ℕ)
        → item.now ≢ Item.Command (Command.Ask (record { uid = uid; ask = Ask.Paths }))) }
{
    match item {
        Item::Command(
            Command::Ask(
                Query {
                    uid,
                    ask: Ask::Paths,
                },
            ),
        ) => Some(*uid),
        _ => None,
    }
}

/// The reply to the item, if it has one, after which the state is the one that it leaves. The engine
/// is one that goes on, with addresses left for the item's text, a blob for each unit of work, and a
/// flush. Over an engine and a store that stand for a state, no blob is called damaged, no stray blob
/// is left, and what is read is read for the item, in turn. Over any other store a blob is called
/// damaged only where it was broken when the store was opened, no blob that was drawn before is
/// written over, and the root is the one from before, or its checkpoint is there; on Ok the root's
/// checkpoint has a number that was drawn, if it had one before.
pub fn reply_to<D: Store>(
    engine: &mut Engine,
    store: &mut D,
    item: Item,
) -> Result<Option<Reply>, Trouble>
    requires sound { IsSoundItem item }
    requires goes_on { engine.old.ended ≡ None }
    requires room { engine.old.space.next + tokens_given (said_by item) ≤ ADDRESSES_MAX }
    requires blobs { engine.old.parts.next_blob + WORK_MAX < 2 ^ 63 }
    requires flushes { engine.old.parts.flushes + 1 < 2 ^ 63 }
    ensures reply { RepliesTo (said_by item) engine.old (D.holds store.old) engine.new (D.holds store.new) result }
    ensures named { NamesAll (said_by item) engine.old (D.holds store.old) (D.holds store.new) result }
    ensures strays { TouchesNoStray engine.old (D.holds store.old) (D.holds store.new) }
    ensures puts { AddsDrawnFor (said_by item) engine.old (D.holds store.old) (D.holds store.new) }
    ensures permitted { ReadsFor (said_by item) engine.old (D.holds store.old) (D.reads store.old) (D.reads store.new) }
    ensures survives { KeepsSaves (said_by item) engine.old (D.holds store.old) (D.moments store.old) (D.moments store.new) }
    ensures durable { SavesFor (said_by item) engine.old (D.holds store.old) (D.moments store.old) (D.moments store.new) result }
    ensures unasked { is_unasked (said_by item) ≡ true → (engine.new ≡ engine.old) × (store.new ≡ store.old) }
    ensures untouched { IfOk result (λ reply. leaves_alone (said_by item) reply engine.old.parts ≡ true → store.new ≡ store.old) }
    ensures earlier { KeepsDrawn engine.old (D.holds store.old) (D.holds store.new) }
    ensures checkpoint { KeepsRootsCheckpoint engine.old (D.holds store.old) (D.holds store.new) }
    ensures rooted { OnOk result (StaysDrawn engine.old engine.new (D.holds store.old) (D.holds store.new)) }
    ensures leaves { OnOk result (IsRaised engine.old engine.new (said_by item)) }
    ensures goes { StillGoes engine.old engine.new (D.holds store.old) (D.holds store.new) result }
    ensures broken { BlamesBroken engine.old (D.holds store.old) result }
    ensures ends { IfErr result (λ trouble. engine.new.ended ≡ Some trouble) }
    ensures cause { HasTroubleCause engine.old.ended (D.faults store.old) (D.faults store.new) result }
    ensures damaged { BlamesNone engine.old (D.holds store.old) result }
{
    match item {
        Item::Command(Command::Update(event)) => reply_to_event(engine, store, &event, b""),
        Item::Command(Command::Ask(query)) => reply_to_query(engine, store, &query),
        Item::Command(Command::Flush) => reply_to_flush(engine, store),
        Item::Command(Command::Work(units)) => reply_to_work(engine, store, units),
        Item::Command(Command::Stat) => reply_to_stat(engine),
        Item::Command(Command::Save) => reply_to_save(engine, store),
        Item::Text { ino, body } => {
            reply_to_event(engine, store, &Event::Text { ino }, body.as_slice())
        }
        Item::Refused(why) => Ok(Some(Reply::Refused(why))),
        Item::Blank | Item::End => Ok(None),
    }
}

/// The reply to an event, where `body` is the text that it gives.
fn reply_to_event<D: Store>(
    engine: &mut Engine,
    store: &mut D,
    event: &Event,
    body: &[u8],
) -> Result<Option<Reply>, Trouble>
    requires event { IsEvent event.now }
    requires short { length body.now ≤ TEXT_MAX }
    requires goes_on { engine.old.ended ≡ None }
    requires room { engine.old.space.next + tokens_given (Happens event.now body.now) ≤ ADDRESSES_MAX }
    requires blobs { engine.old.parts.next_blob + 2 < 2 ^ 63 }
    requires flushes { engine.old.parts.flushes + 1 < 2 ^ 63 }
    ensures reply { RepliesTo (Happens event.now body.now) engine.old (D.holds store.old) engine.new (D.holds store.new) result }
    ensures named { NamesAll (Happens event.now body.now) engine.old (D.holds store.old) (D.holds store.new) result }
    ensures reads { D.reads store.new ≡ D.reads store.old }
    ensures survives { LeavesLast engine.old (D.holds store.old) (D.moments store.old) (D.moments store.new) }
    ensures untouched { IfOk result (λ reply. leaves_alone (Happens event.now body.now) reply engine.old.parts ≡ true
        → (store.new ≡ store.old) × (engine.new.parts.next_blob ≡ engine.old.parts.next_blob)) }
    ensures elsewhere { KeepsOthers engine.old.parts.next_blob (engine.old.parts.next_blob + 2) (D.holds store.old) (D.holds store.new) }
    ensures tried { PutsAtMost 2 engine.old (D.moments store.old) (D.moments store.new) }
    ensures leaves { OnOk result (IsRaised engine.old engine.new (Happens event.now body.now)) }
    ensures goes { StillGoes engine.old engine.new (D.holds store.old) (D.holds store.new) result }
    ensures ends { IfErr result (λ trouble. engine.new.ended ≡ Some trouble) }
    ensures cause { HasTroubleCause engine.old.ended (D.faults store.old) (D.faults store.new) result }
    ensures damaged { (blob : ℕ) → result ≡ Err (Damaged blob) → ⊥ }
{
    let verdict = engine.update(store, event, body)?;
    Ok(Some(verdict_reply(verdict)))
}

/// The answer to a query.
fn reply_to_query<D: Store>(
    engine: &mut Engine,
    store: &mut D,
    query: &Query,
) -> Result<Option<Reply>, Trouble>
    requires sound { IsSoundAsk query.now.ask }
    requires goes_on { engine.old.ended ≡ None }
    ensures reply { RepliesTo (Asks query.now.uid (question_of query.now.ask))
        engine.old (D.holds store.old) engine.new (D.holds store.new) result }
    ensures holds { D.holds store.new ≡ D.holds store.old }
    ensures moments { D.moments store.new ≡ D.moments store.old }
    ensures permitted { ReadsFor (Asks query.now.uid (question_of query.now.ask))
        engine.old (D.holds store.old) (D.reads store.old) (D.reads store.new) }
    ensures reads { OnOk result (ReadsForQuery engine.old.tree engine.old.space.ranges query.now.uid (question_of query.now.ask)
        engine.old.parts engine.new.parts.kept
        (λ texts. AreTexts (D.holds store.old) engine.old.files.entries (question_of query.now.ask) texts × ((s : State)
        → Stands engine.old (D.holds store.old) s → texts ≡ texts_read s query.now.uid (question_of query.now.ask)))
        (D.holds store.old) (D.reads store.old) (D.reads store.new)) }
    ensures space { engine.new.space ≡ engine.old.space }
    ensures parts { engine.new.parts ≡ record engine.old.parts { kept = engine.new.parts.kept } }
    ensures leaves { OnOk result (IsRaised engine.old engine.new (Asks query.now.uid (question_of query.now.ask))) }
    ensures goes { StillGoes engine.old engine.new (D.holds store.old) (D.holds store.new) result }
    ensures broken { BlamesBroken engine.old (D.holds store.old) result }
    ensures ends { IfErr result (λ trouble. engine.new.ended ≡ Some trouble) }
    ensures cause { HasTroubleCause engine.old.ended (D.faults store.old) (D.faults store.new) result }
    ensures damaged { BlamesNone engine.old (D.holds store.old) result }
{
    let answered = engine.query(store, query)?;
    Ok(Some(Reply::Answered(answered)))
}

/// The reply to a flush.
fn reply_to_flush<D: Store>(engine: &mut Engine, store: &mut D) -> Result<Option<Reply>, Trouble>
    requires goes_on { engine.old.ended ≡ None }
    requires blobs { engine.old.parts.next_blob + 1 < 2 ^ 63 }
    requires flushes { engine.old.parts.flushes + 1 < 2 ^ 63 }
    ensures reply { RepliesTo (Operates Flush) engine.old (D.holds store.old) engine.new (D.holds store.new) result }
    ensures named { NamesAll (Operates Flush) engine.old (D.holds store.old) (D.holds store.new) result }
    ensures reads { D.reads store.new ≡ D.reads store.old }
    ensures survives { LeavesLast engine.old (D.holds store.old) (D.moments store.old) (D.moments store.new) }
    ensures elsewhere { KeepsOthers engine.old.parts.next_blob (engine.old.parts.next_blob + 1) (D.holds store.old) (D.holds store.new) }
    ensures space { engine.new.space ≡ engine.old.space }
    ensures tried { PutsAtMost 1 engine.old (D.moments store.old) (D.moments store.new) }
    ensures leaves { OnOk result (IsRaised engine.old engine.new (Operates Flush)) }
    ensures goes { StillGoes engine.old engine.new (D.holds store.old) (D.holds store.new) result }
    ensures ends { IfErr result (λ trouble. engine.new.ended ≡ Some trouble) }
    ensures cause { HasTroubleCause engine.old.ended (D.faults store.old) (D.faults store.new) result }
    ensures damaged { (blob : ℕ) → result ≡ Err (Damaged blob) → ⊥ }
{
    engine.flush(store)?;
    Ok(Some(Reply::Ok))
}

/// The reply to so many units of background work.
fn reply_to_work<D: Store>(
    engine: &mut Engine,
    store: &mut D,
    units: u32,
) -> Result<Option<Reply>, Trouble>
    requires goes_on { engine.old.ended ≡ None }
    requires blobs { engine.old.parts.next_blob + units < 2 ^ 63 }
    ensures reply { RepliesTo (Operates (Work units)) engine.old (D.holds store.old) engine.new (D.holds store.new) result }
    ensures named { NamesAll (Operates (Work units)) engine.old (D.holds store.old) (D.holds store.new) result }
    ensures permitted { ReadsFor (Operates (Work units)) engine.old (D.holds store.old) (D.reads store.old) (D.reads store.new) }
    ensures survives { LeavesLast engine.old (D.holds store.old) (D.moments store.old) (D.moments store.new) }
    ensures elsewhere { KeepsOthers engine.old.parts.next_blob (engine.old.parts.next_blob + units)
        (D.holds store.old) (D.holds store.new) }
    ensures space { engine.new.space ≡ engine.old.space }
    ensures tried { PutsAtMost units engine.old (D.moments store.old) (D.moments store.new) }
    ensures leaves { OnOk result (IsRaised engine.old engine.new (Operates (Work units))) }
    ensures counted { OnOk result (engine.new.parts.flushes ≡ engine.old.parts.flushes) }
    ensures goes { StillGoes engine.old engine.new (D.holds store.old) (D.holds store.new) result }
    ensures broken { BlamesBroken engine.old (D.holds store.old) result }
    ensures ends { IfErr result (λ trouble. engine.new.ended ≡ Some trouble) }
    ensures cause { HasTroubleCause engine.old.ended (D.faults store.old) (D.faults store.new) result }
    ensures damaged { BlamesNone engine.old (D.holds store.old) result }
{
    let worked = engine.work(store, units)?;
    Ok(Some(Reply::Worked(worked)))
}

/// How large the index is.
fn reply_to_stat(engine: &Engine) -> Result<Option<Reply>, Trouble>
    requires goes_on { engine.now.ended ≡ None }
    ensures reply { (holds : Option Content) (s : State) → Stands engine.now holds s → IfOk result
        (λ reply. reply ≡ reply_to s (Operates Stat)) }
    ensures error { IfErr result (λ trouble. trouble ≡ Trouble.NoMemory) }
    ensures ends { IfErr result (λ trouble. engine.now.ended ≡ Some trouble) }
{
    let stat = engine.stat()?;
    Ok(Some(Reply::Stat(stat)))
}

/// The reply to a save. On Ok the root's checkpoint has a number that was drawn, if it had one before.
fn reply_to_save<D: Store>(engine: &mut Engine, store: &mut D) -> Result<Option<Reply>, Trouble>
    requires goes_on { engine.old.ended ≡ None }
    requires blobs { engine.old.parts.next_blob + 2 < 2 ^ 63 }
    requires flushes { engine.old.parts.flushes + 1 < 2 ^ 63 }
    ensures reply { RepliesTo (Operates Save) engine.old (D.holds store.old) engine.new (D.holds store.new) result }
    ensures named { NamesAll (Operates Save) engine.old (D.holds store.old) (D.holds store.new) result }
    ensures strays { TouchesNoStray engine.old (D.holds store.old) (D.holds store.new) }
    ensures puts { AddsDrawnFor (Operates Save) engine.old (D.holds store.old) (D.holds store.new) }
    ensures reads { D.reads store.new ≡ D.reads store.old }
    ensures survives { KeepsEitherSave engine.old (D.holds store.old) (D.moments store.old) (D.moments store.new) }
    ensures durable { (s : State) → Stands engine.old (D.holds store.old) s
        → OnOk result (LeavesNow (D.moments store.new) (IsImageOf (left_to_next s))) }
    ensures order { OnOk result (SavesOnce engine.old engine.new
        (D.holds store.old, D.moments store.old) (D.holds store.new, D.moments store.new)) }
    ensures earlier { KeepsDrawn engine.old (D.holds store.old) (D.holds store.new) }
    ensures checkpoint { KeepsRootsCheckpoint engine.old (D.holds store.old) (D.holds store.new) }
    ensures rooted { OnOk result (StaysDrawn engine.old engine.new (D.holds store.old) (D.holds store.new)) }
    ensures space { engine.new.space ≡ engine.old.space }
    ensures leaves { OnOk result (IsRaised engine.old engine.new (Operates Save)) }
    ensures goes { StillGoes engine.old engine.new (D.holds store.old) (D.holds store.new) result }
    ensures ends { IfErr result (λ trouble. engine.new.ended ≡ Some trouble) }
    ensures cause { HasTroubleCause engine.old.ended (D.faults store.old) (D.faults store.new) result }
    ensures damaged { (blob : ℕ) → result ≡ Err (Damaged blob) → ⊥ }
{
    engine.save(store)?;
    Ok(Some(Reply::Ok))
}

fn verdict_reply(verdict: Verdict) -> Reply
    ensures { result ≡ verdict_reply verdict }
{
    match verdict {
        Verdict::Made => Reply::Ok,
        Verdict::Refused(refusal) => Reply::Refused(Why::Tree(refusal)),
    }
}
