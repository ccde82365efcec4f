// The records that the program reads: a 4-byte length of the rest, a 2-byte kind, a body, little-endian.
//
// Any bytes may be handed in. They are what is at hand of a stream, from a record's start on, and may end before the record does. What
// is broken is said as soon as the bytes show it; a body that is read over need not be at hand.
#![tactic(auto)]

ghost use Rattle.std.specs.Prelude.{◌≡◌, ◌+◌, ◌≤◌, ◌<◌, length};
ghost use Rattle.records.specs.Reading.{half_at, word_at, choice_of, config_at, settings_of, frame_of, body_of, next_of};

use settings::EccConfig;

// What stands at the start of some bytes.
#[derive(Clone, Copy)]
pub enum Record {
    // Too few bytes are at hand to say.
    More,
    // Kind 1, 20 bytes in all.
    Settings(EccConfig),
    // Kind 2: its pixels are the size bytes from index 10 on.
    Frame { w: usize, h: usize, size: usize },
    // Kind 2, too large to be held: so many bytes are to be read over after the first 6.
    Large(usize),
    // Any other kind: so many bytes are to be read over after the first 6.
    Other(usize),
    // No record.
    Broken,
}

// The number of two bytes, low byte first.
#[tactic(auto, unfolding(crate::specs::Reading::half_at))]
fn half_at(s: &[u8], at: usize) -> u16
    requires { at + 2 ≤ length s.now }
    ensures { result ≡ half_at s.now at }
{
    u16::from_le_bytes([s[at], s[at + 1]])
}

// The number of four bytes, low byte first.
#[tactic(auto, unfolding(crate::specs::Reading::half_at, crate::specs::Reading::word_at))]
fn word_at(s: &[u8], at: usize) -> u32
    requires { at + 4 ≤ length s.now }
    ensures { result ≡ word_at s.now at }
{
    u32::from_le_bytes([s[at], s[at + 1], s[at + 2], s[at + 3]])
}

// The resize choice: 0 stands for none.
fn choice(edge: usize) -> Option<usize>
    ensures { result ≡ choice_of edge }
{
    if edge == 0 { None } else { Some(edge) }
}

// The settings of a record of kind 1.
fn config_at(s: &[u8]) -> EccConfig
    requires { 20 ≤ length s.now }
    ensures { result ≡ config_at s.now }
{
    EccConfig {
        eps: numbers::from_bits(word_at(s, 6)),
        max_iter: word_at(s, 10) as usize,
        gauss_filt_size: usize::from(half_at(s, 14)),
        resize_long_edge: choice(word_at(s, 16) as usize),
    }
}

// Kind 1, with a body of so many bytes.
#[tactic(auto, unfolding(crate::specs::Reading::settings_of, lists::specs::Marked::pick))]
fn read_settings(s: &[u8], body: usize) -> Record
    ensures { result ≡ settings_of s.now body }
{
    if body != 14 {
        return Record::Broken;
    }
    if s.len() < 20 {
        return Record::More;
    }
    Record::Settings(config_at(s))
}

// Kind 2, with a body of so many bytes.
#[tactic(auto, unfolding(crate::specs::Reading::frame_of, lists::specs::Marked::pick))]
fn read_frame(s: &[u8], body: usize) -> Record
    ensures { result ≡ frame_of s.now body }
{
    if body < 4 {
        return Record::Broken;
    }
    if body > 1028 {
        return Record::Large(body);
    }
    if s.len() < 6 + body {
        return Record::More;
    }
    Record::Frame {
        w: usize::from(half_at(s, 6)),
        h: usize::from(half_at(s, 8)),
        size: body - 4,
    }
}

// A record by its kind: a number of the format, of which any may come.
#[tactic(auto, unfolding(crate::specs::Reading::body_of, lists::specs::Marked::pick))]
fn read_body(s: &[u8], kind: u16, body: usize) -> Record
    ensures { result ≡ body_of s.now kind body }
{
    match kind {
        1 => read_settings(s, body),
        2 => read_frame(s, body),
        _ => Record::Other(body),
    }
}

// What stands at the start of any bytes.
#[tactic(auto, unfolding(crate::specs::Reading::next_of, lists::specs::Marked::pick))]
pub fn next(s: &[u8]) -> Record
    ensures { result ≡ next_of s.now }
{
    if s.len() < 4 {
        return Record::More;
    }
    let rest = word_at(s, 0) as usize;
    if rest < 2 {
        return Record::Broken;
    }
    if s.len() < 6 {
        return Record::More;
    }
    read_body(s, half_at(s, 4), rest - 2)
}
