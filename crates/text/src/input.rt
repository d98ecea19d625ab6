// Reading that tells a failed read from the end of the input.
ghost use Rattle.std.specs.Prelude.{◌≤◌, length, IfOk};
ghost use Rattle.text.specs.Promises.Input.{Gives};

use crate::report::deliver;
use std::io;
use std::io::Read;

// Reads until buf is full or the input ends; how many bytes were read. No `for`, since each turn goes
// as far as the read before it did; std's `read_exact` says nothing of what came before the end.
pub fn read<R: Read>(reader: &mut R, buf: &mut [u8]) -> io::Result<usize>
    ensures within { IfOk result (λ n. n ≤ length buf.new) }
    ensures bytes { IfOk result (λ n. Gives n (R.remaining reader.old) (R.remaining reader.new) buf.new) }
{
    let mut done = 0;
    while done < buf.len() {
        match reader.read(&mut buf[done..])? {
            0 => return Ok(done),
            more => done += more,
        }
    }
    Ok(done)
}

// What a program does of its input: standard input is read into buf, and handed on; a failed read is
// said on standard error.
pub fn with_input<F: FnOnce(&[u8])>(rt: &HostRuntime, buf: &mut [u8], answer: F)
    requires { F.IsAlwaysCallable answer }
{
    match read(&mut rt.stdin(), buf) {
        Ok(n) => answer(&buf[..n]),
        Err(_) => {
            deliver(rt, &mut rt.stderr(), b"not read\n");
        }
    }
}
