// PGM pictures, plain (P2) and binary (P5), with 8 bits to a pixel, as frame records.
//
// Any bytes may be handed in, and room of any length.
#![tactic(auto)]

ghost use Rattle.std.specs.Prelude.{◌≡◌, false, ◌+◌, ◌*◌, ◌≤◌, length, drop, get_or, Some, Ok};
ghost use Rattle.lists.specs.Lists.{put};
ghost use Rattle.pgm.specs.Pgm.{blank, open_after, between, gap_of, number_at, kind, magic, start_of, from1_to, ranges_of, header_of, fault_text};
ghost use Rattle.pgm.specs.Frame.{pixel_at, gray_pixels_of, fault_of, made_of, record_of};

use scan::Digits;
use std::error::Error;
use std::fmt;

// What stands before the pixels, which begin at index at.
#[derive(Clone, Copy)]
pub struct Header {
    // P2, and not P5: there are these two, and the definitions take a Bool.
    pub is_plain: bool,
    pub w: usize,
    pub h: usize,
    pub max: usize,
    pub at: usize,
}

// Why there is no frame record.
#[derive(Clone, Copy, Debug, PartialEq, Eq)]
pub enum Fault {
    // No PGM.
    Magic,
    // No number, or no white space, where one belongs.
    Head,
    // A side is 0 or too large.
    Side,
    // The largest gray is 0 or too large.
    Gray,
    // The record has no room.
    Room,
    // A pixel is missing.
    Missing,
    // A pixel is above the largest gray.
    Above,
}

impl fmt::Display for Fault {
    ghost output = { λ fault. Some (fault_text fault) };

    fn fmt<W: fmt::Write>(&self, f: &mut fmt::Formatter<W>) -> fmt::Result {
        match self {
            Fault::Magic => f.write_str("no PGM picture (P2 or P5)"),
            Fault::Head => f.write_str("what stands before the pixels is cut short or wrong"),
            Fault::Side => f.write_str("a side is 0 or above 65535"),
            Fault::Gray => f.write_str("the largest gray is 0 or above 255"),
            Fault::Room => f.write_str("more than 65526 pixels"),
            Fault::Missing => f.write_str("too few pixels, or one that is no number"),
            Fault::Above => f.write_str("a pixel is above the largest gray"),
        }
    }
}

impl Error for Fault {}

// The byte at an index, 0 past the end.
fn byte_at(s: &[u8], at: usize) -> u8
    ensures { result ≡ get_or s.now at 0 }
{
    s.get(at).copied().unwrap_or(0)
}

#[tactic(auto, unfolding(crate::specs::Pgm::blank))]
fn is_blank(b: u8) -> bool
    ensures { result ≡ blank b }
{
    matches!(b, b' ' | 9..=13)
}

// Whether a comment is open after b.
#[tactic(auto, unfolding(crate::specs::Pgm::open_after))]
fn is_open(was_open: bool, b: u8) -> bool
    ensures { result ≡ open_after was_open b }
{
    if was_open {
        !matches!(b, b'\n' | b'\r')
    } else {
        b == b'#'
    }
}

// Whether b is white space or a part of a comment.
#[tactic(auto, unfolding(crate::specs::Pgm::between))]
fn is_between(was_open: bool, b: u8) -> bool
    ensures { result ≡ between was_open b }
{
    was_open || b == b'#' || is_blank(b)
}

// The index after white space and comments.
fn skip(s: &[u8], at: usize) -> usize
    ensures { result ≡ at + gap_of false (drop at s.now) }
{
    let mut in_comment = false;
    for i in at..s.len() {
        let b = s[i];
        if !is_between(in_comment, b) {
            return i;
        }
        in_comment = is_open(in_comment, b);
    }
    s.len().max(at)
}

// The number behind white space and comments.
#[tactic(auto, unfolding(crate::specs::Pgm::number_at, crate::specs::Pgm::digits_from, lists::specs::Marked::pick))]
fn number(s: &[u8], at: usize) -> Option<Digits>
    ensures { result ≡ number_at s.now at }
{
    let i = skip(s, at);
    if !scan::is_digit(byte_at(s, i)) {
        return None;
    }
    Some(scan::digits_at(s, i, 0, 65536))
}

#[tactic(auto, unfolding(crate::specs::Pgm::kind))]
fn is_kind(b: u8) -> bool
    ensures { result ≡ kind b }
{
    matches!(b, b'2' | b'5')
}

#[tactic(auto, unfolding(crate::specs::Pgm::magic))]
fn is_magic(s: &[u8]) -> bool
    ensures { result ≡ magic s.now }
{
    byte_at(s, 0) == b'P' && is_kind(byte_at(s, 1)) && is_between(false, byte_at(s, 2))
}

#[tactic(auto, unfolding(crate::specs::Pgm::from1_to))]
fn is_inside(n: usize, most: usize) -> bool
    ensures { result ≡ from1_to n most }
{
    0 < n && n <= most
}

// Where the pixels begin, by the kind of the picture.
#[tactic(auto, unfolding(crate::specs::Pgm::start_of, lists::specs::Marked::pick))]
fn start(s: &[u8], w: usize, h: usize, max: usize, at: usize) -> Result<Header, Fault>
    ensures { result ≡ start_of s.now w h max at }
{
    let is_plain = byte_at(s, 1) == b'2';
    let header = Header {
        is_plain,
        w,
        h,
        max,
        at,
    };
    if is_plain {
        return Ok(header);
    }
    if !is_blank(byte_at(s, at)) {
        return Err(Fault::Head);
    }
    Ok(Header {
        at: at + 1,
        ..header
    })
}

#[tactic(auto, unfolding(crate::specs::Pgm::ranges_of, lists::specs::Marked::pick))]
fn ranges(s: &[u8], w: usize, h: usize, max: usize, at: usize) -> Result<Header, Fault>
    ensures { result ≡ ranges_of s.now w h max at }
{
    if !is_inside(w, 65535) {
        return Err(Fault::Side);
    }
    if !is_inside(h, 65535) {
        return Err(Fault::Side);
    }
    if !is_inside(max, 255) {
        return Err(Fault::Gray);
    }
    start(s, w, h, max, at)
}

// What stands before the pixels of any bytes.
#[tactic(auto, unfolding(crate::specs::Pgm::header_of, crate::specs::Pgm::on_number, lists::specs::Marked::pick))]
pub fn read_header(s: &[u8]) -> Result<Header, Fault>
    ensures { result ≡ header_of s.now }
{
    if !is_magic(s) {
        return Err(Fault::Magic);
    }
    let w = number(s, 2).ok_or(Fault::Head)?;
    let h = number(s, w.next).ok_or(Fault::Head)?;
    let max = number(s, h.next).ok_or(Fault::Head)?;
    ranges(s, w.value, h.value, max.value, max.next)
}

// A pixel and the index after it.
#[tactic(auto, unfolding(crate::specs::Frame::pixel_at, lists::specs::Marked::pick))]
fn pixel(s: &[u8], at: usize, plain: bool) -> Option<Digits>
    ensures { result ≡ pixel_at plain s.now at }
{
    if plain {
        return number(s, at);
    }
    let byte = *s.get(at)?;
    Some(Digits {
        value: usize::from(byte),
        next: at + 1,
    })
}

// Puts n pixels into out from index 10 on, up to the first that is missing or above max, and answers what is wrong with that one.
fn put_pixels(
    s: &[u8],
    at: usize,
    n: usize,
    max: usize,
    plain: bool,
    out: &mut [u8],
) -> Result<(), Fault>
    requires { (10 + n ≤ length out.old) × (max ≤ 255) }
    ensures { (result ≡ fault_of plain max s.now at n)
        × (out.new ≡ put out.old 10 (gray_pixels_of plain max s.now at n)) }
{
    let mut a = at;
    for i in 0..n {
        let d = pixel(s, a, plain).ok_or(Fault::Missing)?;
        let v = d.value;
        if v > max {
            return Err(Fault::Above);
        }
        out[10 + i] = v as u8;
        a = d.next;
    }
    Ok(())
}

// The record of a picture, by what stands before its pixels.
fn put_read(s: &[u8], header: Header, out: &mut [u8]) -> Result<usize, Fault>
    requires { (header.w ≤ 65535) × (header.h ≤ 65535) × (header.max ≤ 255) }
    ensures value { result ≡ made_of s.now (length out.old) (Ok header) }
    ensures out_after { out.new ≡ put out.old 0 (record_of s.now (length out.old) (Ok header)) }
{
    let n = header.w * header.h;
    if out.len() < 10 + n {
        return Err(Fault::Room);
    }
    encode::put_head(out, header.w, header.h);
    put_pixels(s, header.at, n, header.max, header.is_plain, out)?;
    Ok(10 + n)
}

// Puts the frame record of a picture at the front of out. Of a picture that is refused for one of its pixels, out has what stands before
// that one.
pub fn put_frame(s: &[u8], out: &mut [u8]) -> Result<usize, Fault>
    ensures value { result ≡ made_of s.now (length out.old) (header_of s.now) }
    ensures out_after { out.new ≡ put out.old 0 (record_of s.now (length out.old) (header_of s.now)) }
{
    let header = read_header(s)?;
    put_read(s, header, out)
}
