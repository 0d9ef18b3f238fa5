//! Sessions over scripts that are made.
use crate::sessions::whole_output;
use std::alloc::Global;
use std::io;
use wu_rows::{NoAnswer, script};

/// Whether a session over the script writes these replies; both as rows write them, with the line
/// feeds.
fn agrees(alloc: Global, commands: &str, replies: &str) -> Result<bool, NoAnswer> {
    let output = whole_output(alloc, script(alloc, commands)?)?;
    Ok(output.as_slice() == script(alloc, replies)?.as_slice())
}

/// Prints whether what was compared agrees.
fn report(rt: &impl Print, title: &str, agrees: bool) -> io::Result<()> {
    if agrees {
        println!(rt; "{title}: agrees")
    } else {
        println!(rt; "{title}: differs")
    }
}

/// Directories in one another, down to the deepest, which holds files alone.
pub fn compare_depths(rt: &(impl Print + AllocGlobal)) -> io::Result<()> {
    let alloc = rt.alloc();
    report(
        rt,
        "255 directories in one another, and one too many",
        depths_agree(alloc)?,
    )
}

fn depths_agree(alloc: Global) -> Result<bool, NoAnswer> {
    let mut commands = String::new(alloc);
    for parent in 1..256u64 {
        let ino = parent + 1;
        commands.push_str(format!(in alloc; "mkdir~{ino}~{parent}~d~0~0~755\\n")?.as_str())?;
    }
    commands.push_str("create~256~255~d~0~0~644\\n")?;
    agrees(alloc, commands.as_str(), "{254*ok\\n}refused~deep\\nok\\n")
}

/// A ranking beside files of other users, which it does not depend on.
pub fn compare_strangers(rt: &(impl Print + AllocGlobal)) -> io::Result<()> {
    let alloc = rt.alloc();
    report(rt, "a ranking alone", ranking_agrees(alloc, 0)?)?;
    report(
        rt,
        "a ranking beside 100 files of another user",
        ranking_agrees(alloc, 100)?,
    )
}

fn ranking_agrees(alloc: Global, strangers: u64) -> Result<bool, NoAnswer> {
    let mut commands = String::from_str(
        alloc,
        "create~2~1~a~0~0~644\\ntext~2~5\\napple\\ncreate~3~1~b~0~0~644\\ntext~3~9\\npear plum\\n",
    )?;
    for place in 0..strangers {
        let ino = place.saturating_add(10);
        let stranger = format!(in alloc;
            "create~{ino}~1~x{ino}~9~9~600\\ntext~{ino}~5\\napple\\n"
        )?;
        commands.push_str(stranger.as_str())?;
    }
    commands.push_str("rank~5~10~file~apple\\n")?;
    let replies = format!(in alloc;
        "ok\\nok\\nok\\nok\\n{{{strangers}*ok\\nok\\n}}rank~1~1\\n68067~/a~0~4\\n"
    )?;
    agrees(alloc, commands.as_str(), replies.as_str())
}
