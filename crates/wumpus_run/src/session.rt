//! A session, a demonstration or a check: the top call and its contract.
ghost use Rattle.std.specs.Prelude.{◌≡◌, ◌≤◌, Some, false};
ghost use Rattle.wu_outside.specs.Faults.{Rose};
ghost use Rattle.wu_options.specs.CommandLines.{command_line_of, texts_of};
ghost use Rattle.wumpus_run.specs.Checks.{ChecksStore, IfCheck};
ghost use Rattle.wumpus_run.specs.Demo.{IfDemo, IsShown};
ghost use Rattle.wumpus_run.specs.Ended.{asked_for, CallsBroken, IsOutcome, KeepsBlobs, OpensOnly};
ghost use Rattle.wumpus_run.specs.Session.{Completes, FromImage, HasRoom, IsUsage, LeavesAlone};
ghost use Rattle.wumpus_run.specs.Session.{moment, settings_of};
ghost use Rattle.wumpus_run.specs.Courses.{TakesCourse};
ghost use Rattle.wumpus_run.specs.Outcomes.{CarriesOut};
ghost use Rattle.wu_base.specs.declared.limits.TheConstants.{INPUT_MAX};
ghost use Rattle.wu_options.specs.declared.command_lines.Settings.{Settings};

use crate::checking::check_store;
use crate::demo::demo;
use crate::items::answer_script;
use crate::statuses::Status;
use std::alloc::Global;
use wu_base::NoMemory;
use wu_options::{CommandLine, read_command_line};
use wu_outside::{Sink, Source, Store};

/// Runs a session: reads the script from the source as it comes, and writes the reply to each of its
/// items to the sink before it reads the next. `words` are the command-line arguments, those after
/// the program's name. They ask for such a session, and say how many bytes its input may have and
/// from how many postings in memory on these are flushed; or for a demonstration; or for a check of
/// the store. The source is one that has not given its end. The session goes on from what the store
/// holds, from the root directory alone where that is nothing, and its end is a save; a session that
/// ends otherwise saves nothing more. What is said of the output is said where source, sink and
/// store tell what they have, and the store holds an image of a state.
pub fn run<I: Source, O: Sink, D: Store>(
    alloc: Global,
    words: &[&str],
    source: &mut I,
    sink: &mut O,
    store: &mut D,
) -> Status
    requires { I.ended source.old ≡ false }
    // Usage comes exactly where the arguments ask for nothing, unless there is no memory to read them.
    ensures usage { IsUsage result (command_line_of (texts_of words.now)) }
    // What they have no use for isn't touched.
    ensures untouched { LeavesAlone (command_line_of (texts_of words.now))
        source.old source.new sink.old sink.new store.old store.new }
    // Where they ask for a demonstration, the sink gained its line, or a prefix of it.
    ensures demo { IfDemo (command_line_of (texts_of words.now))
        (λ number. IsShown number result (O.gained sink.old) (O.gained sink.new)) }
    // Where they ask for a check, the sink gained the line that tells what is found of the store, or a prefix
    // of it, and the store is as it was. What was read of it is a front of this: the root, the
    // checkpoint, and then each part, from left to right, and behind it the texts of its span, each
    // once, but that of a part maybe its size alone was asked.
    ensures check { IfCheck (command_line_of (texts_of words.now)) (ChecksStore result
        (moment I.Source O.Sink D.Store source.old sink.old store.old)
        (moment I.Source O.Sink D.Store source.new sink.new store.new)) }
    // What was taken, written and saved, and which statuses come when.
    ensures session { IsOutcome result (settings_of (texts_of words.now))
        (moment I.Source O.Sink D.Store source.old sink.old store.old)
        (moment I.Source O.Sink D.Store source.new sink.new store.new) }
    // Whatever the status, the session took a course: the first items of the input were answered in turn,
    // and the next one may have been under way. By this one cut the sink gained their replies and a part
    // of the next one's.
    //
    // Of the store this was read, in turn: at opening the root, its checkpoint and the fronts of
    // its parts, each once, and then item by item: for a query blocks of its terms where her files
    // are, and then, from the first one on and each once, the texts of which a line is shown, or for
    // an export those of all files of her view; for background work blocks of its terms; for any of
    // them it may be fewer, or none. For a later item nothing was read. A session that ended at its
    // opening, before it took or wrote a byte, read nothing but some of what an opening reads.
    //
    // No blob is there that wasn't but those that the items draw. A crash while the session goes on
    // leaves what one could leave before it, or an image of one of the saves made so far. After it a crash
    // leaves the last save whose whole reply the sink has, or the next one; after Done what the items leave.
    ensures course { FromImage (D.holds store.old) (λ s. TakesCourse s result (settings_of (texts_of words.now))
        (moment I.Source O.Sink D.Store source.old sink.old store.old)
        (moment I.Source O.Sink D.Store source.new sink.new store.new)) }
    // Whatever it held, no blob below the root's next one was written over, and none that an earlier
    // session left there without a name was touched.
    ensures blobs { KeepsBlobs
        (moment I.Source O.Sink D.Store source.old sink.old store.old)
        (moment I.Source O.Sink D.Store source.new sink.new store.new) }
    // A store that was only opened, or couldn't be, holds what it held.
    ensures opened { OpensOnly result (settings_of (texts_of words.now))
        (moment I.Source O.Sink D.Store source.old sink.old store.old)
        (moment I.Source O.Sink D.Store source.new sink.new store.new) }
    // A blob is called damaged only where it is broken in what the store held.
    ensures broken { CallsBroken result (D.holds store.old) }
    // Without a fault the session is done, unless there was no memory or the input is too long.
    ensures complete { ¬ Rose (I.faults source.old) (I.faults source.new)
        → ¬ Rose (O.faults sink.old) (O.faults sink.new) → ¬ Rose (D.faults store.old) (D.faults store.new)
        → FromImage (D.holds store.old) (λ s. HasRoom s → Completes result (settings_of (texts_of words.now))
        (moment I.Source O.Sink D.Store source.old sink.old store.old)) }
{
    match asked_for(read_command_line(alloc, words)) {
        Ok(line) => carry_out(alloc, line, source, sink, store),
        Err(status) => status,
    }
}

/// Does what the command line asks for.
fn carry_out<I: Source, O: Sink, D: Store>(
    alloc: Global,
    line: CommandLine,
    source: &mut I,
    sink: &mut O,
    store: &mut D,
) -> Status
    requires goes_on { I.ended source.old ≡ false }
    requires within { (settings : Settings) → line ≡ CommandLine.Run settings → settings.max_input ≤ INPUT_MAX }
    ensures untouched { LeavesAlone (Some line) source.old source.new sink.old sink.new store.old store.new }
    ensures done { CarriesOut (Some line) result
        (moment I.Source O.Sink D.Store source.old sink.old store.old)
        (moment I.Source O.Sink D.Store source.new sink.new store.new) }
{
    match line {
        CommandLine::Run(settings) => answer_script(alloc, settings, source, sink, store),
        CommandLine::Demo(number) => demo(alloc, number, sink),
        CommandLine::Check => check_store(alloc, sink, store),
    }
}

/// What the arguments ask for, as they were read, or how a session ends that can't begin.
fn asked_for(read: Result<Option<CommandLine>, NoMemory>) -> Result<CommandLine, Status>
    ensures { result ≡ asked_for read }
{
    match read {
        Ok(Some(line)) => Ok(line),
        Ok(None) => Err(Status::Usage),
        Err(NoMemory) => Err(Status::NoMemory),
    }
}
