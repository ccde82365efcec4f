// The words of a command line: settings, or a picture's name. Any bytes may be handed in.
#![tactic(auto)]

ghost use Rattle.std.specs.Prelude.{◌≡◌, ◌+◌, ◌≤◌, ◌<◌, length, drop, Some};
ghost use Rattle.settings.specs.Settings.{defaults_of};
ghost use Rattle.options.specs.Words.{begins, whole_of, ratio_of, exponent_of, tail_of, behind_of, eps_of, other_of, word_of, options_of, wrong_text};

use settings::EccConfig;
use std::error::Error;
use std::fmt;

// The numbers of a settings record, as its fields hold them: the bits of eps, max_iter, the filter's size and the edge, 0 for none.
#[derive(Clone, Copy)]
pub struct Options {
    pub eps: usize,
    pub passes: usize,
    pub filter: usize,
    pub edge: usize,
}

// What a word is: settings that were changed, a picture's name, or a wish for the usage.
#[derive(Clone, Copy)]
pub enum Word {
    Settings(Options),
    Picture,
    Help,
}

// Why a word is none of these, by the table of specs/Words.antt.
#[derive(Clone, Copy, Debug, PartialEq, Eq)]
pub enum Wrong {
    NoSetting,
    NoWhole,
    LargeWhole,
    NoDecimal,
    ManyPlaces,
    LargeDecimal,
}

impl fmt::Display for Wrong {
    ghost output = { λ wrong. Some (wrong_text wrong) };

    fn fmt<W: fmt::Write>(&self, f: &mut fmt::Formatter<W>) -> fmt::Result {
        match self {
            Wrong::NoSetting => f.write_str(
                "no such setting; there are --eps=, --max-iter=, --filter=, --edge=",
            ),
            Wrong::NoWhole => f.write_str("no whole number such as 3 behind the ="),
            Wrong::LargeWhole => f.write_str(
                "too large; at most 65535 for --filter, 4294967295 for --max-iter and --edge",
            ),
            Wrong::NoDecimal => f.write_str("no decimal number such as 0.0001, .5 or 1e-4"),
            Wrong::ManyPlaces => f.write_str(
                "too many digits; at most 7 behind the point, and e-4 counts as 4",
            ),
            Wrong::LargeDecimal => f.write_str("too large; at most 16777216 without its point"),
        }
    }
}

impl Error for Wrong {}

// Whether p stands at index at.
fn stands(s: &[u8], at: usize, p: &[u8]) -> bool
    requires { at ≤ length s.now }
    ensures { result ≡ begins (drop at s.now) p.now }
{
    s[at..].starts_with(p)
}

// A whole number in decimal that fills the word from index at on.
#[tactic(auto, unfolding(crate::specs::Words::whole_of, lists::specs::Marked::pick))]
fn whole(s: &[u8], at: usize, most: usize) -> Result<usize, Wrong>
    requires { most ≤ 4294967295 }
    ensures { result ≡ whole_of s.now at most }
{
    if at >= s.len() {
        return Err(Wrong::NoWhole);
    }
    let d = scan::digits_at(s, at, 0, most + 1);
    if d.next != s.len() {
        return Err(Wrong::NoWhole);
    }
    if d.value > most {
        return Err(Wrong::LargeWhole);
    }
    Ok(d.value)
}

// The bits of n / 10^k.
#[tactic(auto, unfolding(crate::specs::Words::ratio_of, lists::specs::Marked::pick))]
fn ratio(n: usize, k: usize) -> Result<usize, Wrong>
    ensures { result ≡ ratio_of n k }
{
    if k > 7 {
        return Err(Wrong::ManyPlaces);
    }
    if n > 16777216 {
        return Err(Wrong::LargeDecimal);
    }
    Ok(numbers::to_bits(numbers::to_f32(n) / numbers::to_f32(10usize.pow(k as u32))) as usize)
}

// The digits of an exponent, which fill the word from index at on. What stands before it is n / 10^k.
#[tactic(auto, unfolding(crate::specs::Words::exponent_of, lists::specs::Marked::pick))]
fn exponent(s: &[u8], at: usize, n: usize, k: usize) -> Result<usize, Wrong>
    requires { k ≤ at }
    ensures { result ≡ exponent_of s.now at n k }
{
    if at >= s.len() {
        return Err(Wrong::NoDecimal);
    }
    let m = scan::digits_at(s, at, 0, 8);
    if m.next != s.len() {
        return Err(Wrong::NoDecimal);
    }
    ratio(n, k + m.value)
}

// The end of the word at index at, or an exponent. What stands before it is n / 10^k.
#[tactic(auto, unfolding(crate::specs::Words::tail_of, lists::specs::Marked::pick))]
fn tail(s: &[u8], at: usize, n: usize, k: usize) -> Result<usize, Wrong>
    requires { (at ≤ length s.now) × (k ≤ at) }
    ensures { result ≡ tail_of s.now at n k }
{
    if at == s.len() {
        return ratio(n, k);
    }
    if stands(s, at, b"e-") || stands(s, at, b"E-") {
        return exponent(s, at + 2, n, k);
    }
    Err(Wrong::NoDecimal)
}

// The digits from index at on, behind a point and the number before it, which begins at index first.
#[tactic(auto, unfolding(crate::specs::Words::behind_of, lists::specs::Marked::pick))]
fn behind(s: &[u8], first: usize, at: usize, before: usize) -> Result<usize, Wrong>
    requires { (first < at) × (at ≤ length s.now) × (before ≤ 16777217) }
    ensures { result ≡ behind_of s.now first at before }
{
    let d = scan::digits_at(s, at, before, 16777217);
    if d.next <= first + 1 {
        return Err(Wrong::NoDecimal);
    }
    tail(s, d.next, d.value, d.next - at)
}

// A decimal number that fills the word from index at on, as the bits of the nearest f32.
#[tactic(auto, unfolding(crate::specs::Words::eps_of, lists::specs::Marked::pick))]
fn eps(s: &[u8], at: usize) -> Result<usize, Wrong>
    requires { at ≤ length s.now }
    ensures { result ≡ eps_of s.now at }
{
    let d = scan::digits_at(s, at, 0, 16777217);
    if stands(s, d.next, b".") {
        return behind(s, at, d.next + 1, d.value);
    }
    if d.next <= at {
        return Err(Wrong::NoDecimal);
    }
    tail(s, d.next, d.value, 0)
}

// A word that is no setting.
#[tactic(auto, using(crate::proofs::Prefix::begins_is), unfolding(crate::specs::Words::other_of, lists::specs::Marked::pick))]
fn other(s: &[u8]) -> Result<Word, Wrong>
    ensures { result ≡ other_of s.now }
{
    if s.starts_with(b"--help") {
        return Ok(Word::Help);
    }
    if s.starts_with(b"--") {
        return Err(Wrong::NoSetting);
    }
    Ok(Word::Picture)
}

// What a word is, with the settings so far.
#[tactic(auto, using(crate::proofs::Prefix::begins_is), unfolding(crate::specs::Words::word_of, crate::specs::Words::on_value, lists::specs::Marked::pick))]
pub fn take_word(o: Options, s: &[u8]) -> Result<Word, Wrong>
    ensures { result ≡ word_of o s.now }
{
    if s.starts_with(b"--eps=") {
        let eps = eps(s, 6)?;
        return Ok(Word::Settings(Options { eps, ..o }));
    }
    if s.starts_with(b"--max-iter=") {
        let passes = whole(s, 11, 4294967295)?;
        return Ok(Word::Settings(Options { passes, ..o }));
    }
    if s.starts_with(b"--filter=") {
        let filter = whole(s, 9, 65535)?;
        return Ok(Word::Settings(Options { filter, ..o }));
    }
    if s.starts_with(b"--edge=") {
        let edge = whole(s, 7, 4294967295)?;
        return Ok(Word::Settings(Options { edge, ..o }));
    }
    other(s)
}

impl Options {
    // Those that the program `pinlog` starts with.
    pub fn defaults() -> Self
        ensures { result ≡ options_of defaults_of }
    {
        let cfg = EccConfig::defaults();
        Options {
            eps: numbers::to_bits(cfg.eps) as usize,
            passes: cfg.max_iter,
            filter: cfg.gauss_filt_size,
            edge: cfg.edge(),
        }
    }
}
