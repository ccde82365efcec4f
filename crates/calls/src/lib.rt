// Whether a whole call of the alignment gives the answer that a vector has, and leaves work and marks as it says; and whether the driver
// numbers are those of a vector. tools/vectors/calls.rs and pins.rs say how a line is made. A vector that is not well formed does not agree.
#![tactic(auto)]

ghost use Rattle.std.specs.Prelude.{◌≡◌, ◌+◌, ◌≤◌, leb, ltb, length, Ok, Err};
ghost use Rattle.lists.specs.Lists.{tab};
ghost use Rattle.lists.specs.Marked.{pick};
ghost use Rattle.floats.specs.F32.{0f};
ghost use Rattle.words.specs.Words.{stored_at};
ghost use Rattle.calls.specs.Calls.{edge_at, settings_at, float_before, word_before, work_agrees, marks_agree, answer_agrees, outcome_agrees, called_agrees, LengthAt, WholeOrNone, call_agrees};
ghost use Rattle.calls.specs.Pins.{pin_agrees, answer_at, pins_agree, calls_agree};

use pose::{Answer, Outcome, Posed};
use refusals::Refusal;
use settings::EccConfig;
use vectors::Kind;
use words::{bytes, float, same_floats, word};

// Where the frames' bytes begin.
const FRAMES: usize = 12;

// A word of the marks before the call: each of its bits is set.
const WORD_BEFORE: u64 = 0xffff_ffff_ffff_ffff;

fn edge_at(words: &[u64]) -> Option<usize>
    ensures { result ≡ edge_at words.now }
{
    if word(words, 8) == 0 {
        return None;
    }
    Some(word(words, 9) as usize)
}

#[tactic(auto, unfolding(crate::specs::Calls::settings_at))]
fn settings_at(words: &[u64]) -> EccConfig
    ensures { result ≡ settings_at words.now }
{
    let edge = edge_at(words);
    EccConfig {
        eps: float(word(words, 5)),
        max_iter: word(words, 6) as usize,
        gauss_filt_size: word(words, 7) as usize,
        resize_long_edge: edge,
    }
}

// What stands at a place of the work before the call: no zero of the sign that clearing writes.
#[tactic(auto, unfolding(crate::specs::Calls::float_before, lists::specs::Marked::pick))]
fn float_before(i: usize) -> f32
    ensures { result ≡ float_before i }
{
    if i % 3 == 0 { -0.0 } else { 1.0 }
}

// What is to stand at a place afterwards: `cleared` in the first `zeros` places, else what stood there.
#[tactic(auto, unfolding(lists::specs::Marked::pick))]
fn after<T: Copy>(i: usize, zeros: u64, cleared: T, before: T) -> T
    ensures { result ≡ pick (ltb i zeros) cleared before }
{
    if (i as u64) < zeros { cleared } else { before }
}

fn fill_work(work: &mut [f32])
    ensures { work.new ≡ tab (length work.old) float_before }
{
    for (i, x) in work.iter_mut().enumerate() {
        *x = float_before(i);
    }
}

fn fill_marks(marks: &mut [u64])
    ensures { marks.new ≡ tab (length marks.old) (λ _. word_before) }
{
    marks.fill(WORD_BEFORE);
}

// Whether the first `zeros` floats are +0 and the rest stayed.
fn work_agrees(work: &[f32], zeros: u64) -> bool
    ensures { result ≡ work_agrees zeros work.now }
{
    work.iter().enumerate().all(|(i, x)| {
        numbers::to_bits(*x) == numbers::to_bits(after(i, zeros, 0.0, float_before(i)))
    })
}

// Whether the first `zeros` words are 0 and the rest stayed.
fn marks_agree(marks: &[u64], zeros: u64) -> bool
    ensures { result ≡ marks_agree zeros marks.now }
{
    marks
        .iter()
        .enumerate()
        .all(|(i, x)| *x == after(i, zeros, 0, WORD_BEFORE))
}

// The number of a refusal, which is not 0, from the word `at` on, and zeros for its pose.
fn refused(words: &[u64], at: usize, refusal: Refusal) -> bool
    requires { at ≤ 8412 }
    ensures { result ≡ answer_agrees words.now at (Err refusal) }
{
    let number = refusal.number();
    word(words, at) == u64::from(number)
        && number != 0
        && same_floats(words, at + 2, 4, &[0.0; 4], 0)
}

// The number 0, from the word `at` on, and the four numbers of a pose.
fn posed(words: &[u64], at: usize, p: Posed) -> bool
    requires { at ≤ 8412 }
    ensures { result ≡ answer_agrees words.now at (Ok p) }
{
    word(words, at) == 0 && same_floats(words, at + 2, 4, &[p.theta, p.tx, p.ty, p.rho], 0)
}

fn answer_agrees(words: &[u64], at: usize, a: Answer) -> bool
    requires { at ≤ 8412 }
    ensures { result ≡ answer_agrees words.now at a }
{
    match a {
        Err(refusal) => refused(words, at, refusal),
        Ok(p) => posed(words, at, p),
    }
}

// Number, passes, pose and matrix, from the word `at` on.
#[tactic(auto, unfolding(crate::specs::Calls::outcome_agrees))]
fn outcome_agrees(words: &[u64], at: usize, out: Outcome) -> bool
    requires { at ≤ 8412 }
    ensures { result ≡ outcome_agrees words.now at out }
{
    let a = out.answer;
    let m = pose::matrix_of(a);
    let entries = [
        m.m00, m.m01, m.m02, m.m10, m.m11, m.m12, m.m20, m.m21, m.m22,
    ];
    out.passes as u64 == word(words, at + 1)
        && same_floats(words, at + 6, 9, &entries, 0)
        && answer_agrees(words, at, a)
}

// The call itself, by slices of the lengths that the vector says; the answer stands from the word `at` on.
#[tactic(auto, unfolding(crate::specs::Calls::called_agrees))]
fn called(
    words: &[u64],
    at: usize,
    template: &[u8],
    input: &[u8],
    work: &mut [f32],
    marks: &mut [u64],
) -> bool
    requires { at ≤ 8412 }
    ensures { result ≡ called_agrees words.now at template.now input.now (length work.old) (length marks.old) }
{
    fill_work(work);
    fill_marks(marks);
    let out = alignment::find_transform_ecc_euclidean(
        template,
        input,
        word(words, 1) as usize,
        word(words, 2) as usize,
        settings_at(words),
        work,
        marks,
    );
    outcome_agrees(words, at, out)
        && work_agrees(work, word(words, at + 15))
        && marks_agree(marks, word(words, at + 16))
}

// The bytes of both frames, and how many floats and words of marks are lent.
#[derive(Clone, Copy)]
struct Lengths {
    template: usize,
    input: usize,
    work: usize,
    marks: usize,
}

// A length up to `most`.
fn length_at(words: &[u64], i: usize, most: usize) -> Option<usize>
    ensures { LengthAt (stored_at words.now i) most result }
{
    let n = word(words, i);
    if n <= most as u64 {
        Some(n as usize)
    } else {
        None
    }
}

// The lengths, where they fit the arrays below and the line ends with the answer's words.
#[tactic(auto, unfolding(crate::specs::Calls::is_whole))]
fn lengths_at(words: &[u64]) -> Option<Lengths>
    ensures { WholeOrNone words.now result }
{
    let lengths = Lengths {
        template: length_at(words, 3, 4200)?,
        input: length_at(words, 4, 4200)?,
        work: length_at(words, 10, 50000)?,
        marks: length_at(words, 11, 80)?,
    };
    if words.len() != FRAMES + lengths.template + lengths.input + 17 {
        return None;
    }
    Some(lengths)
}

// Sides, lengths, settings, frames; the answer, and how much is cleared.
#[tactic(auto, unfolding(crate::specs::Calls::call_agrees))]
fn call_agrees(words: &[u64]) -> bool
    ensures { result ≡ call_agrees words.now }
{
    let Some(n) = lengths_at(words) else {
        return false;
    };
    let mut template = [0u8; 4200];
    let mut input = [0u8; 4200];
    let mut work = [0.0f32; 50000];
    let mut marks = [0u64; 80];
    bytes(words, FRAMES, &mut template);
    bytes(words, FRAMES + n.template, &mut input);
    called(
        words,
        FRAMES + n.template + n.input,
        &template[..n.template],
        &input[..n.input],
        &mut work[..n.work],
        &mut marks[..n.marks],
    )
}

// A driver number, told by whether it is below 0 and by its distance to 0.
#[tactic(auto, unfolding(crate::specs::Pins::pin_agrees))]
fn pin_agrees(v: i16, below: u64, size: u64) -> bool
    ensures { result ≡ pin_agrees v below size }
{
    below == u64::from(v < 0) && text::size(v) == size
}

// The answer's number, theta, tx, ty.
#[tactic(auto, unfolding(crate::specs::Pins::answer_at, lists::specs::Marked::pick))]
fn answer_at(words: &[u64]) -> Answer
    ensures { result ≡ answer_at words.now }
{
    let number = word(words, 1);
    if number == 0 {
        return Ok(Posed {
            theta: float(word(words, 2)),
            tx: float(word(words, 3)),
            ty: float(word(words, 4)),
            rho: 0.0,
        });
    }
    Err(Refusal::Handed((number % 256) as u8))
}

// The answer, the sides; dx, dy and turn.
#[tactic(auto, unfolding(crate::specs::Pins::pins_agree))]
fn pins_agree(words: &[u64]) -> bool
    ensures { result ≡ pins_agree words.now }
{
    let pins = driver::pins_of(
        answer_at(words),
        word(words, 5) as usize,
        word(words, 6) as usize,
    );
    pin_agrees(pins.dx, word(words, 7), word(words, 8))
        && pin_agrees(pins.dy, word(words, 9), word(words, 10))
        && pin_agrees(pins.turn, word(words, 11), word(words, 12))
}

#[tactic(auto, unfolding(crate::specs::Pins::calls_agree, lists::specs::Marked::pick))]
pub fn agrees(kind: u64, words: &[u64]) -> bool
    ensures { result ≡ calls_agree kind words.now }
{
    let Ok(kind) = Kind::try_from(kind) else {
        return false;
    };
    match kind {
        Kind::Call => call_agrees(words),
        Kind::Pins => pins_agree(words),
        _ => false,
    }
}
