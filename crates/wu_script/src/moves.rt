//! Writing a reply that is let go.
ghost use Rattle.std.specs.Prelude.{◌≡◌, ◌++◌, ◌∷◌, [], codes, decimal, length, OnOk, OnErr};
ghost use Rattle.wu_script.specs.Replies.{reply_bytes};

use crate::replies::{append_export_line, put_reply};
use crate::types::Reply;
use wu_ask::Answered;
use wu_base::NoMemory;

/// Appends what `put_reply` appends, and lets the reply go. The script of an export isn't copied:
/// `out` goes on in its vector. The one error is `NoMemory`; `out` is then as it was.
#[tactic(auto, unfolding(crate::specs::Replies::reply_bytes, crate::specs::Replies::answer_bytes))]
pub fn move_reply(out: &mut Vec<u8>, reply: Reply) -> Result<(), NoMemory>
    ensures ok { OnOk result (out.new.items ≡ out.old.items ++ reply_bytes reply) }
    ensures err { OnErr result (out.new.items ≡ out.old.items) }
{
    match reply {
        Reply::Answered(Answered::Export { script }) => move_export(out, script.into_vec()),
        other => put_reply(out, &other),
    }
}

/// Appends an export: the number of the script's bytes on a line of its own, these bytes, and a LF.
fn move_export(out: &mut Vec<u8>, script: Vec<u8>) -> Result<(), NoMemory>
    ensures ok { OnOk result (out.new.items ≡ out.old.items
        ++ (codes "export\t" ++ decimal (length script.items) ++ 10 ∷ []
        ++ script.items ++ 10 ∷ [])) }
    ensures err { OnErr result (out.new.items ≡ out.old.items) }
{
    let mut whole = script;
    let mut front = Vec::from_slice(*out.allocator(), out.as_slice())?;
    append_export_line(&mut front, whole.len() as u64)?;
    put_before(&mut whole, &front)?;
    whole.push(b'\n')?;
    *out = whole;
    Ok(())
}

/// Puts the front before the bytes, which stay in their vector where it has room.
fn put_before(bytes: &mut Vec<u8>, front: &[u8]) -> Result<(), NoMemory>
    ensures { OnOk result (bytes.new.items ≡ front.now ++ bytes.old.items) }
{
    bytes.extend_from_slice(front)?;
    bytes.rotate_right(front.len());
    Ok(())
}
