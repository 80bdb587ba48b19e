// The marking program: a bench file on standard input, its result lines on standard output. It moves bytes and decides
// nothing.
#![tactic(auto)]

ghost use Rattle.mark.specs.Marks.{most_printed, Marks};
ghost use Rattle.std.specs.Prelude.{◌≤◌, length};

use std::io;

// Bytes enough for the result lines of every file.
const LINES: usize = 12288;

// More bytes than a bench file may have, so that a file that has too many is not cut.
const FILE: usize = 65536;

fn main(rt: HostRuntime) -> io::Result<()> {
    let mut file = [0u8; FILE];
    let length = input::fill(&mut rt.stdin(), &mut file)?;
    mark(&rt, &file[..length])
}

fn mark(rt: &impl Print, file: &[u8]) -> io::Result<()> {
    let mut bytes = [0u8; LINES];
    let length = lines(file, &mut bytes);
    rt.write_all(&bytes[..length])
}

// The result lines of a file, into the bytes from the first on: how many. All of them fit.
fn lines(file: &[u8], bytes: &mut [u8]) -> usize
    requires { most_printed ≤ length bytes.old }
    ensures { Marks file.now result bytes.new }
{
    bench::lines(file, bytes).unwrap_or(0)
}
