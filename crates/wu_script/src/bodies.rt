//! Bodies, as they are taken from a source in whatever pieces it gives them.
ghost use Rattle.std.specs.Prelude.{◌≡◌, ◌++◌, ◌≤◌, ◌<◌, List, ℕ, false, true, length, min, max, take, drop, IfErr, IfOk, OnOk};
ghost use Rattle.wu_script.specs.Holding.{Held, Uses, Follows, EndsEarly, HasReadCause, GivesAtMost, asked_at_once};
ghost use Rattle.wu_script.specs.Taking.{TakesBytes};

use crate::ends::ReadEnd;
use crate::input::Input;
use wu_base::NoMemory;
use wu_outside::Source;

/// Takes so many bytes, or all up to the end of the input, and says whether there were so many.
/// They are appended to the body where they are to be kept.
pub fn take_bytes<I: Source>(
    input: &mut Input,
    source: &mut I,
    count: u64,
    body: &mut Vec<u8>,
    kept: bool,
) -> Result<bool, ReadEnd>
    requires { Follows (I.ended source.old) (I.last_read source.old) input.old }
    ensures taken { IfOk result (λ all. (bytes : List ℕ)
        × TakesBytes (I.left source.old) (I.left source.new) input.old input.new count all bytes
        × (kept ≡ true → body.new.items ≡ body.old.items ++ bytes)) }
    ensures unkept { kept ≡ false → body.new ≡ body.old }
    ensures follows { OnOk result (Follows (I.ended source.new) (I.last_read source.new) input.new) }
    ensures still { count ≤ length input.old.bytes → source.new ≡ source.old }
    ensures early { IfErr result (EndsEarly (λ bytes. length bytes < count) (I.left source.old) (I.left source.new) (I.last_read source.new) input.old) }
    ensures brief { GivesAtMost (asked_at_once input.old.spare) (I.left source.old) (I.left source.new) (I.last_read source.old) (I.last_read source.new) }
    ensures asked { I.most_asked source.new ≤ max (I.most_asked source.old) (asked_at_once input.old.spare) }
    ensures cause { HasReadCause (I.faults source.old) (I.faults source.new) result }
{
    let mut missing = count;
    'parts: while missing > 0 {
        match input.fill(source) {
            Ok(true) => {}
            Ok(false) => return Ok(false),
            Err(end) => return Err(end),
        }
        let part = take_part(input, missing, body, kept)?;
        missing -= part;
    }
    Ok(true)
}

/// Takes the bytes that are held, but no more than are missing, and says how many.
fn take_part(
    input: &mut Input,
    missing: u64,
    body: &mut Vec<u8>,
    kept: bool,
) -> Result<u64, NoMemory>
    ensures count { IfOk result (λ count. count ≡ min (length input.old.bytes) missing) }
    ensures rest { IfOk result (λ count. input.new ≡ record input.old { bytes = drop count input.old.bytes }) }
    ensures kept { IfOk result (λ count. kept ≡ true → body.new.items ≡ body.old.items ++ take count input.old.bytes) }
    ensures unkept { kept ≡ false → body.new ≡ body.old }
{
    let bytes = input.bytes();
    let count = (bytes.len() as u64).min(missing);
    if kept {
        body.extend_from_slice(&bytes[..count as usize])?;
    }
    input.use_first(count as usize);
    Ok(count)
}
