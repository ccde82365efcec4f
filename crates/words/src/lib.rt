// A stored vector's words as numbers, bytes and floats, and whether floats and bytes are those of the words.
#![tactic(auto)]

ghost use Rattle.std.specs.Prelude.{◌≡◌, ◌+◌, ◌%◌, ◌^◌, ◌≤◌, length, take, drop};
ghost use Rattle.lists.specs.Lists.{put};
ghost use Rattle.words.specs.Words.{stored_at, float_of, has_bits, bytes_at, floats_at, floats_agree, bytes_agree};

mod line;

pub use line::Line;

// The word i, or 0 past the end.
pub fn word(words: &[u64], i: usize) -> u64
    ensures { result ≡ stored_at words.now i }
{
    words.get(i).copied().unwrap_or(0)
}

// The low 32 bits.
fn low(w: u64) -> u32
    ensures { result ≡ w % 2 ^ 32 }
{
    (w % 0x1_0000_0000) as u32
}

// The float whose bit pattern a word is.
pub fn float(w: u64) -> f32
    ensures { result ≡ float_of w }
{
    numbers::from_bits(low(w))
}

// Whether a float has a word's bit pattern.
pub fn same(x: f32, w: u64) -> bool
    ensures { result ≡ has_bits x w }
{
    numbers::to_bits(x) == low(w)
}

// The words from `from` on, as bytes.
pub fn bytes(words: &[u64], from: usize, out: &mut [u8])
    ensures { out.new ≡ bytes_at words.now from (length out.old) }
{
    for (i, b) in out.iter_mut().enumerate() {
        *b = byte(word_after(words, from, i));
    }
}

// A word as a byte.
fn byte(w: u64) -> u8
    ensures { result ≡ w % 256 }
{
    (w % 256) as u8
}

// The n words from `from` on, as floats, from the place `at` on.
pub fn floats(words: &[u64], from: usize, n: usize, out: &mut [f32], at: usize)
    requires { at + n ≤ length out.old }
    ensures { out.new ≡ put out.old at (floats_at words.now from n) }
{
    for i in 0..n {
        out[at + i] = float(word_after(words, from, i));
    }
}

// The word i after `from`, or 0 past the end.
fn word_after(words: &[u64], from: usize, i: usize) -> u64
    ensures { result ≡ stored_at words.now (from + i) }
{
    from.checked_add(i).map_or(0, |at| word(words, at))
}

// Whether the n floats from `at` on have the bit patterns of the words from `from` on.
pub fn same_floats(words: &[u64], from: usize, n: usize, xs: &[f32], at: usize) -> bool
    requires { at + n ≤ length xs.now }
    ensures { result ≡ floats_agree words.now from (take n (drop at xs.now)) }
{
    xs[at..at + n]
        .iter()
        .enumerate()
        .all(|(i, x)| same(*x, word_after(words, from, i)))
}

// Whether the first n bytes are those of the words from `from` on.
pub fn same_bytes(words: &[u64], from: usize, n: usize, xs: &[u8]) -> bool
    requires { n ≤ length xs.now }
    ensures { result ≡ bytes_agree words.now from (take n xs.now) }
{
    xs[..n]
        .iter()
        .enumerate()
        .all(|(i, x)| *x == byte(word_after(words, from, i)))
}
