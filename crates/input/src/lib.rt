// Reading a file or a stream into lent bytes.
#![tactic(auto)]

ghost use Rattle.std.specs.Prelude.{IfOk, length, take, ◌<◌};
ghost use Rattle.std.specs.Io.{ReadsAtMost};
ghost use Rattle.std.specs.Io.KnownBytes.{Consumes, IsAtEnd};

use std::io;
use std::io::Read;

// Reads until the bytes are full or the input ends: how many were read, into the bytes from the first on.
pub fn fill<R: Read>(reader: &mut R, bytes: &mut [u8]) -> io::Result<usize>
    ensures within { ReadsAtMost result bytes.new }
    ensures reads { IfOk result (λ n. Consumes (R.remaining reader.old) (R.remaining reader.new) (take n bytes.new)) }
    ensures ends { IfOk result (λ n. n < length bytes.new → IsAtEnd (R.remaining reader.new)) }
{
    let mut count = 0;
    while count < bytes.len() {
        let more = reader.read(&mut bytes[count..])?;
        if more == 0 {
            break;
        }
        count += more;
    }
    Ok(count)
}
