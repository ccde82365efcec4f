// The parts of a pass: warp, rows that hold a mark, centred statistics, inverse. Images are small enough for local arrays.
ghost use Rattle.std.specs.Prelude.{◌≡◌, ◌&&◌, ◌+◌, ◌*◌, ◌≤◌, eqb, length, take, drop};
ghost use Rattle.lists.specs.Lists.{tab, put, image};
ghost use Rattle.lists.specs.Marked.{words_for};
ghost use Rattle.marks.specs.Marks.{on};
ghost use Rattle.bits.specs.Words.{words_of, unpacked_of};
ghost use Rattle.bits.specs.Packing.{flag_of};
ghost use Rattle.words.specs.Words.{stored_at, floats_agree, bytes_agree};
ghost use Rattle.vectors.specs.Passes.{map_at, matrix_at, warp_agrees, marked_agree, rows_told, rows_agree, norms_of, stats_agree, inverse_agrees};

use crate::shapes::sides_at;
use inverse::Matrix3;
use rows::Rows;
use words::{bytes, float, floats, same, same_bytes, same_floats, word};

// The first two rows of a matrix, from the word i on.
#[tactic(auto, unfolding(crate::specs::Passes::map_at))]
fn map_at(words: &[u64], i: usize) -> pose::Map
    requires { i ≤ 8 }
    ensures { result ≡ map_at words.now i }
{
    pose::Map {
        m00: float(word(words, i)),
        m01: float(word(words, i + 1)),
        m02: float(word(words, i + 2)),
        m10: float(word(words, i + 3)),
        m11: float(word(words, i + 4)),
        m12: float(word(words, i + 5)),
    }
}

// Whether three images, marks and their count are those of the words: the images follow three others.
fn told(words: &[u64], n: usize, part: &[f32], marks: &[u8], found: usize) -> bool
    requires { (n ≤ 1024) × (6 * n ≤ length part.now) × (n ≤ length marks.now) }
    ensures { result ≡ (floats_agree words.now (9 + 3 * n) (take (3 * n) (drop (3 * n) part.now)) && bytes_agree words.now (9 + 6 * n) (take n marks.now) && eqb found (stored_at words.now (9 + 7 * n))) }
{
    same_floats(words, 9 + 3 * n, 3 * n, part, 3 * n)
        && same_bytes(words, 9 + 6 * n, n, marks)
        && found as u64 == word(words, 9 + 7 * n)
}

// The first n marks of the words, a byte each.
fn unpacked(marks: &[u64], n: usize, out: &mut [u8])
    requires { (n ≤ 1024) × (words_for n ≤ length marks.now) × (n ≤ length out.old) }
    ensures { out.new ≡ put out.old 0 (unpacked_of marks.now n) }
{
    for i in 0..n {
        out[i] = u8::from(bits::is_marked(marks, i));
    }
}

// w, h, the map, three images; three images, marks, their count. What the words of marks held before does not matter.
#[tactic(auto, unfolding(crate::specs::Passes::warp_agrees))]
pub fn warped(words: &[u64]) -> bool
    ensures { result ≡ warp_agrees words.now }
{
    let Some(s) = sides_at(words, 1) else {
        return false;
    };
    let n = s.n;
    let mut part = [1.0f32; 6144];
    let mut marks = [0xffff_ffff_ffff_ffffu64; 16];
    let mut out = [1u8; 1024];
    floats(words, 9, 3 * n, &mut part, 0);
    let found = warp::warp_three_inverse_map(&mut part, &mut marks, map_at(words, 3), s.w, s.h);
    unpacked(&marks, n, &mut out);
    told(words, n, &part, &out, found.count)
}

// The flags of the first n marks.
fn flagged(marks: &[u8], n: usize, flags: &mut [u32])
    requires { (n ≤ length marks.now) × (n ≤ length flags.old) }
    ensures { flags.new ≡ put flags.old 0 (tab n (λ i. flag_of (on marks.now i) i)) }
{
    for i in 0..n {
        flags[i] = bits::flag(marks[i] != 0, i);
    }
}

// The first n marks go into the words, whatever these held before.
fn packed(marks: &[u8], n: usize, out: &mut [u64])
    requires { (n ≤ 1024) × (n ≤ length marks.now) × (words_for n ≤ length out.old) }
    ensures { out.new ≡ put out.old 0 (words_of marks.now n) }
{
    let mut flags = [0u32; 1024];
    flagged(marks, n, &mut flags);
    zeros::fill_words(out, (n + 63) / 64);
    bits::pack(&flags, out, 0, n);
}

// Whether these rows are those of the words: 1 and the first and the last, or 0, from the word i on.
fn rows_told(words: &[u64], i: usize, rows: Option<Rows>) -> bool
    requires { i ≤ 8192 }
    ensures { result ≡ rows_told words.now i rows }
{
    let Some(r) = rows else {
        return word(words, i) == 0;
    };
    if word(words, i) != 1 {
        return false;
    }
    word(words, i + 1) == r.first as u64 && word(words, i + 2) == r.last as u64
}

// w, h, marks; the first and the last row that hold one. What the words of marks held before does not matter.
#[tactic(auto, unfolding(crate::specs::Passes::rows_agree))]
pub fn rows_marked(words: &[u64]) -> bool
    ensures { result ≡ rows_agree words.now }
{
    let Some(s) = sides_at(words, 1) else {
        return false;
    };
    let mut stored = [0u8; 1024];
    let mut marks = [0xffff_ffff_ffff_ffffu64; 16];
    bytes(words, 3, &mut stored);
    packed(&stored, s.n, &mut marks);
    rows_told(words, 3 + s.n, rows::marked_rows(&marks, s.w, s.h))
}

// Whether the n floats from `at` on have, where they are marked, the bit patterns of the words from `from` on.
fn same_marked(words: &[u64], from: usize, n: usize, marks: &[u8], xs: &[f32], at: usize) -> bool
    requires { (from ≤ 8192) × (n ≤ 1024) × (n ≤ length marks.now) × (at + n ≤ length xs.now) }
    ensures { result ≡ marked_agree marks.now words.now from (take n (drop at xs.now)) }
{
    (0..n).all(|i| marks[i] == 0 || same(xs[at + i], word(words, from + i)))
}

// Whether both centred images, where they are marked, and the norms are those of the words.
#[tactic(auto, unfolding(lists::specs::Lists::image))]
fn told_marked(words: &[u64], n: usize, marks: &[u8], part: &[f32], s: stats::Stats) -> bool
    requires { (n ≤ 1024) × (n ≤ length marks.now) × (6 * n ≤ length part.now) }
    ensures { let ms = marks.now in
        let ws = words.now in
        let xs = part.now in
        result ≡ (marked_agree ms ws (2 + 3 * n) (image n 4 xs) && marked_agree ms ws (2 + 4 * n) (image n 5 xs) && floats_agree ws (2 + 5 * n) (norms_of s)) }
{
    same_marked(words, 2 + 3 * n, n, marks, part, 4 * n)
        && same_marked(words, 2 + 4 * n, n, marks, part, 5 * n)
        && same_floats(words, 2 + 5 * n, 3, &[s.tmp_norm, s.img_norm, s.corr], 0)
}

// Pixels, marks, image, template; centred template and centred image where they are marked, norms, correlation.
pub fn centred(words: &[u64]) -> bool
    ensures { result ≡ stats_agree words.now }
{
    let w = word(words, 1);
    if w > 1024 {
        return false;
    }
    let n = w as usize;
    let mut stored = [0u8; 1024];
    let mut marks = [0xffff_ffff_ffff_ffffu64; 16];
    let mut part = [1.0f32; 6144];
    bytes(words, 2, &mut stored);
    packed(&stored, n, &mut marks);
    floats(words, 2 + n, n, &mut part, 0);
    floats(words, 2 + 2 * n, n, &mut part, 3 * n);
    let found = bits::count(&marks, (n + 63) / 64);
    let r = stats::centered_stats_in_place(&mut part, &marks, n, 0, n, found);
    told_marked(words, n, &stored, &part, r)
}

// A matrix, from the word i on.
#[tactic(auto, unfolding(crate::specs::Passes::matrix_at))]
fn matrix_at(words: &[u64], i: usize) -> Matrix3
    requires { i ≤ 11 }
    ensures { result ≡ matrix_at words.now i }
{
    Matrix3 {
        m00: float(word(words, i)),
        m01: float(word(words, i + 1)),
        m02: float(word(words, i + 2)),
        m10: float(word(words, i + 3)),
        m11: float(word(words, i + 4)),
        m12: float(word(words, i + 5)),
        m20: float(word(words, i + 6)),
        m21: float(word(words, i + 7)),
        m22: float(word(words, i + 8)),
    }
}

// Nine entries; 1 and the inverse's entries, or 0.
pub fn inverted(words: &[u64]) -> bool
    ensures { result ≡ inverse_agrees words.now }
{
    match inverse::try_inverse(matrix_at(words, 1)) {
        None => word(words, 10) == 0,
        Some(m) => {
            let e = [
                m.m00, m.m01, m.m02, m.m10, m.m11, m.m12, m.m20, m.m21, m.m22,
            ];
            word(words, 10) == 1 && same_floats(words, 11, 9, &e, 0)
        }
    }
}
