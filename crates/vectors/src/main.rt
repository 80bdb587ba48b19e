// Runs bench checks by the operations of crate `bench` and prints what they answer. The arguments name files of bytes.
// What is printed is compared with the file `stdout`, which is worked out from document 01 and never from this program.
#![tactic(auto)]

mod files;
mod print;
mod room;

use std::io;

fn main(rt: HostRuntime) -> io::Result<()> {
    files::each(&rt)?;
    room::reads(&rt)?;
    room::writes(&rt)?;
    room::round_trips(&rt)
}
