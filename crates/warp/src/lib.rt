// warp_three_inverse_map: three images warped by a map inside one lent part, with marks, their count and the rows that hold one.
//
// A pixel is marked exactly when its computed point lies inside (crate places). Unmarked places hold +0 in all three answers. The four
// source pixels of a marked pixel are proved to lie inside: there is no clamp. A row is worked out in pieces of at most 256 pixels: first
// the places, weights and flags of a piece, in a loop that the compiler can take several pixels at a time; then its flags are packed into
// the words of the marks; then its pixels are read (crate blends), a stretch of marked ones after the other. The scratch for a piece is
// small, so that the warp holds it itself.
#![tactic(auto)]

ghost use Rattle.std.specs.Prelude.{◌≡◌, ℕ, ◌+◌, ◌-◌, ◌*◌, ◌≤◌, ◌<◌, length, get_or};
ghost use Rattle.lists.specs.Premises.{InRange};
ghost use Rattle.lists.specs.Marked.{words_for};
ghost use Rattle.floats.specs.F32.{0f};
ghost use Rattle.bits.specs.Words.{unpacked_of};
ghost use Rattle.warp.specs.Warp.{Warped};
ghost use Rattle.blends.specs.Reads.{three_rows};
ghost use Rattle.warp.specs.Rows.{read_of, Reach, Holding, WarpedThrough};

// What the warp has marked: how many pixels, and the first and the last row that hold one.
#[derive(Clone, Copy)]
pub struct Found {
    pub count: usize,
    pub rows: Option<rows::Rows>,
}

// Room for what is worked out of a piece of a row, at most 256 pixels: a place, two weights and a flag for each.
#[derive(Drop)]
struct Scratch {
    spots: [u32; 256],
    across: [f32; 256],
    down: [f32; 256],
    flags: [u32; 256],
}

// The pixels from `from` to `to` of the image, none of them marked, become +0 in the images 3 to 5. One loop for all three: mostly it is one pixel.
fn clear_stretch(part: &mut [f32], n: usize, from: usize, to: usize)
    requires { (from ≤ to) × (to ≤ n) × (6 * n ≤ length part.old) }
    ensures { part.new ≡ three_rows n from (to - from) (λ _ _. 0f) part.old }
{
    let first = 3 * n;
    let second = 4 * n;
    let third = 5 * n;
    for x in from..to {
        part[first + x] = 0.0;
        part[second + x] = 0.0;
        part[third + x] = 0.0;
    }
}

// The reads of the `len` pixels from `at` on, by their places and weights, and by the marks in the words.
fn reads(
    part: &mut [f32],
    marks: &[u64],
    scratch: &Scratch,
    w: usize,
    n: usize,
    at: usize,
    len: usize,
)
    requires { (at + len ≤ n) × (n ≤ 16777216) × (6 * n ≤ length part.old) × (words_for n ≤ length marks.now) × (len ≤ 256)
        × Reach n w at len (unpacked_of marks.now n) scratch.now.spots }
    ensures { part.new ≡ three_rows n at len
        (read_of n w at (unpacked_of marks.now n) scratch.now.spots scratch.now.across scratch.now.down part.old)
        part.old }
{
    // By hand: how far a turn goes is found in it.
    let mut x = 0;
    while x < len {
        let r = bits::next_stretch(marks, at + x, at + len);
        clear_stretch(part, n, at + x, r.from);
        blends::reads_stretch(
            part,
            &scratch.spots,
            &scratch.across,
            &scratch.down,
            w,
            n,
            at,
            r.from - at,
            r.to - at,
        );
        x = r.to - at;
    }
}

// The `len` pixels from x on of the row y: their places, their marks, then their reads.
fn warp_piece(
    part: &mut [f32],
    marks: &mut [u64],
    scratch: &mut Scratch,
    map: pose::Map,
    w: usize,
    h: usize,
    x: usize,
    y: usize,
    len: usize,
)
    requires { InRange w h × (y < h) × (x + len ≤ w) × (6 * (w * h) ≤ length part.old) × (words_for (w * h) ≤ length marks.old)
        × (len ≤ 256) × Holding map w h (y * w + x) marks.old }
    ensures { WarpedThrough map w h (y * w + x) len part.old marks.old part.new marks.new }
{
    let at = y * w + x;
    places::places_row(
        &mut scratch.spots,
        &mut scratch.across,
        &mut scratch.down,
        &mut scratch.flags,
        map,
        w,
        h,
        x,
        y,
        len,
    );
    bits::pack(&scratch.flags, marks, at, len);
    reads(part, marks, scratch, w, w * h, at, len);
}

// The row y, piece after piece.
fn warp_row(
    part: &mut [f32],
    marks: &mut [u64],
    scratch: &mut Scratch,
    map: pose::Map,
    w: usize,
    h: usize,
    y: usize,
)
    requires { InRange w h × (y < h) × (6 * (w * h) ≤ length part.old) × (words_for (w * h) ≤ length marks.old)
        × Holding map w h (y * w) marks.old }
    ensures { WarpedThrough map w h (y * w) w part.old marks.old part.new marks.new }
{
    // By hand: the last piece may be shorter, and a range by steps of 256 is left in two places, each to be proved.
    let mut x = 0;
    while x < w {
        let len = (w - x).min(256);
        warp_piece(part, marks, scratch, map, w, h, x, y, len);
        x += len;
    }
}

// The part's images 0 to 2 are warped into its images 3 to 5, and the first w * h marks are set. Answers how many are marked, and in which rows.
pub fn warp_three_inverse_map(
    part: &mut [f32],
    marks: &mut [u64],
    map: pose::Map,
    w: usize,
    h: usize,
) -> Found
    requires { InRange w h × (6 * (w * h) ≤ length part.old) × (words_for (w * h) ≤ length marks.old) }
    ensures { Warped map w h part.old marks.old part.new marks.new result }
{
    let mut scratch = Scratch {
        spots: [0; 256],
        across: [0.0; 256],
        down: [0.0; 256],
        flags: [0; 256],
    };
    let words = (w * h + 63) / 64;
    zeros::fill_words(marks, words);
    for y in 0..h {
        warp_row(part, marks, &mut scratch, map, w, h, y);
    }
    let rows = rows::marked_rows(marks, w, h);
    let count = bits::count(marks, words);
    Found { count, rows }
}
