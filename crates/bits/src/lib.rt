// Marks in words: sixty-four to a word, pixel i in bit i mod 64 of word i div 64. Here they are packed, counted, and searched for the next
// stretch of marked pixels. What is above knows of stretches alone, and of no shift.
#![tactic(auto)]

ghost use Rattle.std.specs.Prelude.{◌≡◌, ℕ, ◌+◌, ◌-◌, ◌*◌, ◌/◌, ◌%◌, ◌^◌, ◌≤◌, ◌<◌, eqb, length};
ghost use Rattle.lists.specs.Marked.{pick};
ghost use Rattle.bits.specs.Words.{bit_at, ones_of};
ghost use Rattle.bits.specs.Packing.{flag_of, Flags, total_of, Packed};
ghost use Rattle.bits.specs.Stretches.{FirstOther, StretchOf};

mod walk;

pub use walk::{MarkedStretches, fold_marked, marked_stretches};

// The pixels from `from` on, before `to`.
#[derive(Clone, Copy)]
pub struct Stretch {
    pub from: usize,
    pub to: usize,
}

// The ones of the first k words.
#[tactic(auto, using(crate::proofs::Words::ones_none, crate::proofs::Words::ones_more))]
pub fn count(words: &[u64], k: usize) -> usize
    requires { (k ≤ length words.now) × (k ≤ 262144) }
    ensures { result ≡ ones_of words.now k }
{
    let mut sum = 0usize;
    for word in &words[..k] {
        sum += word.count_ones() as usize;
    }
    sum
}

// Whether pixel i is marked.
pub fn is_marked(words: &[u64], i: usize) -> bool
    requires { (i < 64 * length words.now) × (i ≤ 16777216) }
    ensures { result ≡ eqb (bit_at words.now i) 1 }
{
    (words[i / 64] >> (i % 64)) % 2 == 1
}

// The flag of pixel q: its bit within its half of a word where it is marked, else 0. With no branch, so that several are made at a time.
pub fn flag(marked: bool, q: usize) -> u32
    ensures { result ≡ flag_of marked q }
{
    let bit = 1u32 << (q % 32);
    if marked { bit } else { 0 }
}

// The sum of `len` flags from `at` on. The compiler takes several at a time.
#[tactic(auto, using(crate::proofs::Packing::total_none, crate::proofs::Packing::total_more))]
fn total(flags: &[u32], at: usize, len: usize) -> u64
    requires { (len ≤ 32) × (at + len ≤ length flags.now) }
    ensures { result ≡ total_of flags.now at len }
{
    let mut sum = 0u64;
    for flag in &flags[at..at + len] {
        sum += u64::from(*flag);
    }
    sum
}

// The marks of `len` pixels from p on, given by their flags, go into the words: half a word's part of them at a turn.
pub fn pack(flags: &[u32], words: &mut [u64], p: usize, len: usize)
    requires { (len ≤ length flags.now) × (p + len ≤ 64 * length words.old) × (p + len ≤ 16777216) × Flags flags.now p len }
    ensures { Packed flags.now p len words.old words.new }
{
    // By hand: how far a turn goes is worked out in the loop, so a range has nothing to count.
    let mut x = 0;
    while x < len {
        let q = p + x;
        let k = (32 - q % 32).min(len - x);
        let bits = total(flags, x, k);
        words[q / 64] |= bits << (q % 64 / 32 * 32);
        x += k;
    }
}

// The place of the lowest bit of a word that is not 0.
fn lowest(word: u64) -> usize
    requires { 0 < word }
    ensures { (result < 64) × ((s : ℕ) → s < result → word / 2 ^ s % 2 ≡ 0) × (word / 2 ^ result % 2 ≡ 1) }
{
    u64::trailing_zeros(word) as usize
}

// The word, or with each of its bits changed.
fn seen(word: u64, marked: bool) -> u64
    ensures { (s : ℕ) → s < 64 → result / 2 ^ s % 2 ≡ pick marked (1 - word / 2 ^ s % 2) (word / 2 ^ s % 2) }
{
    if marked { !word } else { word }
}

// From i on, before e, the first pixel that is not marked (or that is), or e.
fn first_other(words: &[u64], marked: bool, i: usize, e: usize) -> usize
    requires { (i ≤ e) × (e ≤ 64 * length words.now) × (e ≤ 16777216) }
    ensures { FirstOther words.now (pick marked 1 0) i e result }
{
    // By hand: a turn goes to the end of a word, so a range has nothing to count.
    let mut at = i;
    while at < e {
        let left = seen(words[at / 64], marked) >> (at % 64);
        if left != 0 {
            return (at + lowest(left)).min(e);
        }
        at += 64 - at % 64;
    }
    e
}

// The next stretch of marked pixels from i on, before e.
pub fn next_stretch(words: &[u64], i: usize, e: usize) -> Stretch
    requires { (i ≤ e) × (e ≤ 64 * length words.now) × (e ≤ 16777216) }
    ensures { StretchOf words.now i e result }
{
    let from = first_other(words, false, i, e);
    let to = first_other(words, true, from, e);
    Stretch { from, to }
}
