// A file's bytes, read into a lent buffer until the file ends, a read fails or the buffer is full.
//
// What each read answers goes to `after_read`, whose contract settles what comes of it.
#![tactic(auto)]

ghost use Rattle.std.specs.Prelude.{◌≡◌, ◌-◌, ◌≤◌, length, take, Some, codes};
ghost use Rattle.files.specs.Fill.{Moved, answer_of, after_read, Grown, Over, Gathered, count_of};

use std::error::Error;
use std::io::Read;
use std::{fmt, io};

// A read failed, behind so many bytes.
#[derive(Clone, Copy, Debug, PartialEq, Eq)]
pub struct Failed {
    pub count: usize,
}

impl fmt::Display for Failed {
    ghost output = { λ _. Some (codes "a read of it failed") };

    fn fmt<W: fmt::Write>(&self, f: &mut fmt::Formatter<W>) -> fmt::Result {
        f.write_str("a read of it failed")
    }
}

impl Error for Failed {}

// After a read behind n bytes, which answered got: how many bytes are held, or none where the file has ended.
#[tactic(auto, unfolding(crate::specs::Fill::after_read, lists::specs::Marked::pick))]
fn after_read(n: usize, got: io::Result<usize>) -> Result<Option<usize>, Failed>
    requires { Moved (18446744073709551615 - n) (answer_of got) }
    ensures { result ≡ after_read n (answer_of got) }
{
    match got {
        Err(_) => Err(Failed { count: n }),
        Ok(0) => Ok(None),
        Ok(k) => Ok(Some(n + k)),
    }
}

// One read, into what follows the n bytes that are held.
fn read_on<R: Read>(input: &mut R, n: usize, buf: &mut [u8]) -> Result<Option<usize>, Failed>
    requires { n ≤ length buf.old }
    ensures grown { Grown (length buf.old) n result }
    ensures buf_unchanged { take n buf.new ≡ take n buf.old }
{
    after_read(n, input.read(&mut buf[n..]))
}

// Reads until no read follows, and answers how many bytes are held.
pub fn fill<R: Read>(input: &mut R, buf: &mut [u8]) -> Result<usize, Failed>
    ensures { Gathered (length buf.old) (Over result) × (count_of result ≤ length buf.old) }
{
    // By hand: a turn goes as far as a read, so a range has nothing to count.
    let mut count = 0;
    while count < buf.len() {
        let Some(more) = read_on(input, count, buf)? else {
            return Ok(count);
        };
        count = more;
    }
    Ok(count)
}
