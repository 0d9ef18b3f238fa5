//! A reply is written: all of it at once, or its front first and then the rest as it is made, so
//! that no reply to `paths` is held whole.
ghost use Rattle.std.specs.Prelude.{◌≡◌, ◌⊎◌, ◌++◌, ◌∷◌, [], None, Option, Some};
ghost use Rattle.std.specs.Prelude.{codes, decimal, slice_get, IfErr, IfOk, OnErr, OnOk};
ghost use Rattle.std.specs.Io.KnownBytes.{Appends};
ghost use Rattle.std.specs.List.{flat_map};
ghost use Rattle.wu_ask.specs.Questions.{ListingPaths};
ghost use Rattle.wu_outside.specs.Content.{Content};
ghost use Rattle.wu_outside.specs.Faults.{HasFaultCause};
ghost use Rattle.wu_outside.specs.Gains.{GainsPrefix};
ghost use Rattle.wu_view.specs.declared.Seen.{Seen};
ghost use Rattle.wu_script.specs.Replies.{path_line};
ghost use Rattle.wu_script.specs.Said.{Asks};
ghost use Rattle.wu_query.specs.States.{State};
ghost use Rattle.wu_engine.specs.Calls.{StillGoes};
ghost use Rattle.wu_engine.specs.Listing.{files_kept};
ghost use Rattle.wu_engine.specs.Stands.{Stands};
ghost use Rattle.wumpus_run.specs.Raised.{IsRaised};
ghost use Rattle.wumpus_run.specs.Replies.{said_bytes};
ghost use Rattle.wumpus_run.specs.Rests.{PassesOn, lines_of, rest_bytes};

use wu_base::{Bytes, NoMemory, Trouble, Uid};
use wu_engine::Engine;
use wu_fields::{put_decimal, put_field};
use wu_outside::{Fault, Sink, write_all};

/// From how many bytes on what was made of a reply is written, and let go.
const WRITTEN_AT: usize = 65_536;

/// What of a reply is still to come, once its front was made.
#[derive(Clone, Copy, Debug, PartialEq, Eq)]
pub enum Rest {
    /// Nothing: the front is all of it.
    Nothing,
    /// The lines of the paths of the files that are kept for the user.
    Paths { uid: Uid },
}

/// Appends the first line of the reply to a user's question for her paths, and has her view kept:
/// the rest of the reply is those paths. The one error is out of memory, and the engine ends by it,
/// unless only the line had no room.
pub fn begin_paths(engine: &mut Engine, uid: Uid, out: &mut Vec<u8>) -> Result<Rest, Trouble>
    requires goes_on { engine.old.ended ≡ None }
    ensures answer { (holds : Option Content) (s : State) → Stands engine.old holds s → IfOk result
        (λ rest. (out.new.items ++ rest_bytes engine.new rest
        ≡ out.old.items ++ said_bytes s (Asks uid ListingPaths)) × Stands engine.new holds s) }
    ensures parts { engine.new.parts ≡ engine.old.parts }
    ensures leaves { OnOk result (IsRaised engine.old engine.new (Asks uid ListingPaths)) }
    ensures goes { (holds : Option Content) → StillGoes engine.old engine.new holds holds result }
    ensures ends { IfErr result (λ trouble. (engine.new.ended ≡ Some trouble)
        ⊎ ((trouble ≡ Trouble.NoMemory) × (engine.new.ended ≡ None))) }
    ensures cause { IfErr result (λ trouble. trouble ≡ Trouble.NoMemory) }
{
    let count = engine.ask_paths(uid)?;
    put_count(out, count)?;
    Ok(Rest::Paths { uid })
}

/// Appends the line that says how many paths there are.
fn put_count(out: &mut Vec<u8>, count: u64) -> Result<(), NoMemory>
    ensures { OnOk result (out.new.items
        ≡ out.old.items ++ (codes "paths\t" ++ decimal count ++ 10 ∷ [])) }
{
    out.extend_from_slice(b"paths\t")?;
    put_decimal(out, count)?;
    out.push(b'\n')?;
    Ok(())
}

/// Writes the reply, and then the rest of it as it is made. The vector of the reply holds no more
/// than WRITTEN_AT bytes and the lines of one file at once. After a fault the sink gained a prefix.
pub(crate) fn send<O: Sink>(
    sink: &mut O,
    engine: &Engine,
    reply: &mut Vec<u8>,
    rest: Rest,
) -> Result<(), Fault>
    ensures ok { OnOk result (Appends (O.gained sink.old) (O.gained sink.new)
        (reply.old.items ++ rest_bytes engine.now rest)) }
    ensures err { OnErr result (GainsPrefix (O.gained sink.old) (O.gained sink.new)
        (reply.old.items ++ rest_bytes engine.now rest)) }
    ensures cause { HasFaultCause (O.faults sink.old) (O.faults sink.new) result }
{
    match rest {
        Rest::Nothing => write_all(sink, reply.as_slice()),
        Rest::Paths { uid } => send_paths(sink, engine, reply, uid),
    }
}

/// Writes the reply, and then the lines of the paths of the files that are kept for the user.
fn send_paths<O: Sink>(
    sink: &mut O,
    engine: &Engine,
    reply: &mut Vec<u8>,
    uid: Uid,
) -> Result<(), Fault>
    ensures ok { OnOk result (Appends (O.gained sink.old) (O.gained sink.new)
        (reply.old.items ++ lines_of (files_kept engine.now.frames uid))) }
    ensures err { OnErr result (GainsPrefix (O.gained sink.old) (O.gained sink.new)
        (reply.old.items ++ lines_of (files_kept engine.now.frames uid))) }
    ensures cause { HasFaultCause (O.faults sink.old) (O.faults sink.new) result }
{
    for place in 0..engine.files_kept(uid) {
        send_file(sink, engine, reply, uid, place)?;
    }
    write_all(sink, reply.as_slice())
}

/// Appends the lines of the paths of the file at that place of the user's view, and writes what is
/// held where that is much.
fn send_file<O: Sink>(
    sink: &mut O,
    engine: &Engine,
    held: &mut Vec<u8>,
    uid: Uid,
    place: usize,
) -> Result<(), Fault>
    ensures ok { (seen : Seen) → slice_get (files_kept engine.now.frames uid) place ≡ Some seen
        → OnOk result (PassesOn (O.gained sink.old) (O.gained sink.new)
        held.old.items (flat_map path_line seen.paths) held.new.items) }
    ensures err { (seen : Seen) → slice_get (files_kept engine.now.frames uid) place ≡ Some seen
        → OnErr result (GainsPrefix (O.gained sink.old) (O.gained sink.new)
        (held.old.items ++ flat_map path_line seen.paths)) }
    ensures cause { HasFaultCause (O.faults sink.old) (O.faults sink.new) result }
{
    put_file(engine, held, uid, place)?;
    if held.len() < WRITTEN_AT {
        return Ok(());
    }
    write_all(sink, held.as_slice())?;
    held.clear();
    Ok(())
}

/// Appends the lines of the paths of the file at that place of the user's view.
fn put_file(engine: &Engine, out: &mut Vec<u8>, uid: Uid, place: usize) -> Result<(), NoMemory>
    ensures { (seen : Seen) → slice_get (files_kept engine.now.frames uid) place ≡ Some seen
        → OnOk result (out.new.items ≡ out.old.items ++ flat_map path_line seen.paths) }
{
    match engine.paths_at(uid, place)? {
        Some(paths) => put_lines(out, paths.as_slice()),
        None => Ok(()),
    }
}

/// Appends each path on a line of its own.
fn put_lines(out: &mut Vec<u8>, paths: &[Bytes]) -> Result<(), NoMemory>
    ensures { OnOk result (out.new.items ≡ out.old.items ++ flat_map path_line paths.now) }
{
    for path in paths {
        put_field(out, path.as_slice())?;
        out.push(b'\n')?;
    }
    Ok(())
}
