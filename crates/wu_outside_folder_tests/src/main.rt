//! Compares what a store in a real folder answers with the tables on standard input, also where
//! calls of the system fail.
#![tactic(auto)]

mod failing_files;
mod folders;
mod synced_files;

use std::io;
use wu_rows::compare;

fn main(rt: HostRuntime) -> io::Result<()> {
    let files = &rt;
    compare(&rt, |alloc, _, call, arguments| {
        folders::answer(files, alloc, call, arguments)
    })?;
    failing_files::compare_system_calls(&rt)?;
    folders::compare_long_reads(&rt)
}
