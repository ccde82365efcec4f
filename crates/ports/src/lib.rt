// The two calls of the system on which the program stands: one read and one write. What a read brings and what becomes of a write have no place in a
// contract, so nothing else is done here.
#![tactic(auto)]

ghost use Rattle.std.specs.Prelude.{◌≡◌, ◌+◌, ◌≤◌, length, take};
ghost use Rattle.ports.specs.Ports.{Handed, Fetched};

use std::io::{Print, Read, Stdout};

// Reads once, into the room behind the first n bytes, and answers how many bytes came: none where the read failed.
pub fn fetch<R: Read>(input: &mut R, buf: &mut [u8], n: usize) -> usize
    requires { n ≤ length buf.old }
    ensures { Fetched buf.old n buf.new result }
{
    input.read(&mut buf[n..]).unwrap_or(0)
}

// Hands the first bytes of out, those that wait, to standard output, and answers how many wait afterwards: none. A write that fails is not told of.
pub fn flush(output: Stdout, out: &[u8], waits: usize) -> usize
    requires { waits ≤ length out.now }
    ensures { (result ≡ 0) × Handed (take waits out.now) }
{
    let _ = output.write_all(&out[..waits]);
    0
}
