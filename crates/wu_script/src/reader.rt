//! The reader that gives a script's items as they come.
ghost use Rattle.std.specs.Prelude.{◌≡◌, ◌<◌, ◌≤◌, max, [], false, true, length, Err, OnOk, IfErr, IfOk};
ghost use Rattle.std.specs.Io.KnownBytes.{IsAtEnd, prepend_known};
ghost use Rattle.wu_base.specs.declared.limits.TheConstants.{READ_MAX};
ghost use Rattle.wu_script.specs.Holding.{Held, Follows, GivesAtMost, GivesTooMuch, HasReadCause, asked_at_once};
ghost use Rattle.wu_script.specs.declared.ends.ReadEnd.TheVariants.{InputTooLong};

use crate::ends::ReadEnd;
use crate::input::Input;
use crate::items::take_item;
use crate::types::Item;
use std::alloc::Global;
use std::marker::Model;
use wu_base::NoMemory;
use wu_outside::Source;

/// A reader of a script. Contracts see the bytes that were given and not used yet, how many more may
/// be given, and whether the source gave its end.
#[derive(Debug, Drop)]
pub struct Reader {
    input: Input,
    line: Vec<u8>,
}

impl Model for Reader {
    ghost Value = { Held };

    ghost view = { λ r. r.input };
}

impl Reader {
    ghost use Rattle.wu_script.specs.Items.{TakesItem, IsNext, EndsBeforeItem, first_of};
    ghost use Rattle.wu_script.specs.Said.{IsSoundItem};

    /// A reader of a script of at most so many bytes. It takes room for READ_MAX bytes; the one error
    /// is `NoMemory`: out of memory.
    pub fn new(alloc: Global, max_input: u64) -> Result<Reader, NoMemory>
        ensures { IfOk result (λ reader. reader ≡ record { bytes = []; spare = max_input; ended = false }) }
    {
        Ok(Reader {
            input: Input::new(alloc, max_input)?,
            line: Vec::new(alloc),
        })
    }

    /// The next item of the script. It asks the source for at most READ_MAX bytes at once, and at most
    /// as many as it may give, or for one byte where it may give none; for nothing while a whole item
    /// is held, and for nothing after its end. The source is one that gave its end, if it did, to this
    /// reader, and whose last read gave what the reader holds; a new reader holds nothing.
    /// `InputTooLong` comes where the one byte is given, `ReadFault` where the source failed, and
    /// `NoMemory` out of memory. After `End` or an error a reader is only dropped.
    pub fn next<I: Source>(&mut self, source: &mut I) -> Result<Item, ReadEnd>
        requires { Follows (I.ended source.old) (I.last_read source.old) self.old }
        ensures follows { OnOk result (Follows (I.ended source.new) (I.last_read source.new) self.new) }
        // Over every source: bytes that were held or given are the item, and were used.
        ensures taken { IfOk result (TakesItem (I.left source.old) (I.left source.new) (I.last_read source.new) self.old self.new) }
        // Over a source that tells what it has left: the item is the first of what is held and left.
        ensures first { (self.old.ended ≡ true → IsAtEnd (I.left source.old)) → IfOk result
            (IsNext (prepend_known self.old.bytes (I.left source.old)) (prepend_known self.new.bytes (I.left source.new))) }
        ensures at_end { OnOk result ((self.old.ended ≡ true → IsAtEnd (I.left source.old)) → self.new.ended ≡ true → IsAtEnd (I.left source.new)) }
        ensures sound { IfOk result IsSoundItem }
        ensures idle { (first_of self.old.bytes).closed ≡ true → source.new ≡ source.old }
        // After each item fewer than READ_MAX bytes are held. The last read of this call gave no more than is asked for at once,
        // or the source, as far as it tells, gave nothing.
        ensures few { OnOk result (length self.new.bytes < READ_MAX) }
        ensures brief { GivesAtMost (asked_at_once self.old.spare) (I.left source.old) (I.left source.new) (I.last_read source.old) (I.last_read source.new) }
        // Nor did a read of it that didn't fail ask for more at once.
        ensures asked { I.most_asked source.new ≤ max (I.most_asked source.old) (asked_at_once self.old.spare) }
        // No item was whole where reading ended, and the source gave no more than it may, or one byte more, which came alone.
        ensures early { IfErr result (EndsBeforeItem (I.left source.old) (I.left source.new) (I.last_read source.new) self.old) }
        ensures long { result ≡ Err InputTooLong → GivesTooMuch (I.left source.old) (I.left source.new) (I.last_read source.new) self.old }
        // The source's count of faults is as it was on every answer but `ReadFault`, which comes only where it rose.
        ensures cause { HasReadCause (I.faults source.old) (I.faults source.new) result }
    {
        take_item(&mut self.input, source, &mut self.line)
    }
}
