// The program's lines, put into a lent slice. Each function answers the index after what it put.
//
// These are inner parts: the caller sees to it that there is room.
#![tactic(auto)]

ghost use Rattle.std.specs.Prelude.{◌≡◌, [], ◌∷◌, ◌++◌, ◌+◌, ◌≤◌, length};
ghost use Rattle.text.specs.Text.{distance_of, signed_of, frame_line, end_line, Wrote};

use itoa::{Buffer, Integer};

// The bytes of src.
#[tactic(auto, unfolding(lists::specs::Lists::put))]
fn put_bytes(out: &mut [u8], at: usize, src: &[u8]) -> usize
    requires { at + length src.now ≤ length out.old }
    ensures { Wrote out.old at src.now (length src.now) out.new result }
{
    let end = at + src.len();
    out[at..end].copy_from_slice(src);
    end
}

// n in decimal, and the byte that ends it.
// By itoa: of `write!` into lent memory the library says only what is written if all of it is.
fn put_number<I: Integer>(out: &mut [u8], at: usize, n: I, end: u8) -> usize
    requires { at + I.MAX_STR_LEN + 1 ≤ length out.old }
    ensures { Wrote out.old at (I.text n ++ (end ∷ [])) (I.MAX_STR_LEN + 1) out.new result }
{
    let mut digits = Buffer::new();
    let next = put_bytes(out, at, digits.format(n).as_bytes());
    put_bytes(out, next, &[end])
}

// n in decimal, with a sign where it is negative, and the byte that ends it.
// The sign by hand, though itoa's text has it: so an edit that loses it falls for what is put, and not for the form of the call (docs/DESIGN-PASS.md).
fn put_signed(out: &mut [u8], at: usize, n: i16, end: u8) -> usize
    requires { at + 7 ≤ length out.old }
    ensures { Wrote out.old at (signed_of n ++ (end ∷ [])) 7 out.new result }
{
    if n < 0 {
        let next = put_bytes(out, at, b"-");
        return put_number(out, next, n.unsigned_abs(), end);
    }
    put_number(out, at, n.unsigned_abs(), end)
}

// The distance of n to 0.
pub fn size(n: i16) -> u64
    ensures { (result ≡ distance_of n) × (result ≤ 32768) }
{
    u64::from(n.unsigned_abs())
}

// A frame's line: `position number passes dx dy turn`.
pub fn put_line(
    out: &mut [u8],
    at: usize,
    position: u64,
    number: u8,
    passes: usize,
    dx: i16,
    dy: i16,
    turn: i16,
) -> usize
    requires { at + 100 ≤ length out.old }
    ensures { Wrote out.old at (frame_line position number passes dx dy turn) 100 out.new result }
{
    let a = put_number(out, at, position, b' ');
    let b = put_number(out, a, number, b' ');
    let c = put_number(out, b, passes, b' ');
    let d = put_signed(out, c, dx, b' ');
    let e = put_signed(out, d, dy, b' ');
    put_signed(out, e, turn, b'\n')
}

// The last line: `done` or `cut`, and the count of frames.
// The word is chosen by a bool, as the definition `end_line` has it.
pub fn put_end(out: &mut [u8], at: usize, done: bool, frames: u64) -> usize
    requires { at + 100 ≤ length out.old }
    ensures { Wrote out.old at (end_line done frames) 100 out.new result }
{
    let word: &[u8] = if done { b"done " } else { b"cut " };
    let next = put_bytes(out, at, word);
    put_number(out, next, frames, b'\n')
}
