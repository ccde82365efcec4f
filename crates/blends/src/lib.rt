// The pixels of three images at given places: the four pixels around each point, weighed and added.
//
// It is lent six images one after another: 0 to 2 are read, 3 to 5 written. Where the places of some pixels follow one another, as they do in
// most of a row that is turned by little, so do the pixels that are read: such a run is worked out one image after the other, in a loop that
// the compiler takes several pixels at a time. Elsewhere each pixel is read by its own place.
#![tactic(auto)]

ghost use Rattle.std.specs.Prelude.{◌≡◌, ℕ, ◌+◌, ◌-◌, ◌*◌, ◌≤◌, ◌<◌, length, get_or};
ghost use Rattle.std.specs.Float.{nan};
ghost use Rattle.lists.specs.Lists.{tab, put};
ghost use Rattle.blends.specs.Reads.{four_at, ThreeOf, breaks_of, Placed, Taken};

// A pixel of the three warped images.
#[derive(Clone, Copy)]
struct Three(f32, f32, f32);

// Four pixels, the top left one at i, weighed and added.
fn blend(src: &[f32], w: usize, i: usize, a: f32, b: f32) -> f32
    requires { i + w + 1 < length src.now }
    ensures { result ≡ four_at src.now w i a b }
{
    let j = i + w;
    src[i] * ((1.0 - a) * (1.0 - b))
        + src[i + 1] * (a * (1.0 - b))
        + src[j] * ((1.0 - a) * b)
        + src[j + 1] * (a * b)
}

// The same in each of the images 0 to 2.
fn mix(part: &[f32], w: usize, n: usize, i: usize, a: f32, b: f32) -> Three
    requires { (3 * n ≤ length part.now) × (i + w + 1 < n) }
    ensures { ThreeOf n w i a b part.now result }
{
    let first = blend(part, w, i, a, b);
    let second = blend(part, w, n + i, a, b);
    let third = blend(part, w, 2 * n + i, a, b);
    Three(first, second, third)
}

// The pixels from `from` to `to` of a piece that starts at the pixel `at`, each of them by its own place and weights.
fn by_place(
    part: &mut [f32],
    spots: &[u32],
    across: &[f32],
    down: &[f32],
    w: usize,
    n: usize,
    at: usize,
    from: usize,
    to: usize,
)
    requires { Placed n w at from to spots.now across.now down.now part.old }
    ensures { Taken n w at from to spots.now across.now down.now part.old part.new }
{
    let first = 3 * n + at;
    let second = 4 * n + at;
    let third = 5 * n + at;
    for x in from..to {
        let i = spots[x] as usize;
        let p = mix(part, w, n, i, across[x], down[x]);
        part[first + x] = p.0;
        part[second + x] = p.1;
        part[third + x] = p.2;
    }
}

// How many of the places from `from` to `to` do not follow the one before. All are looked at: the compiler takes several at a time.
fn breaks(spots: &[u32], from: usize, to: usize) -> u32
    requires { (from < to) × (to ≤ 16777216) × (to ≤ length spots.now) × ((x : ℕ) → from ≤ x → x < to → get_or spots.now x 0 < 16777216) }
    ensures { result ≡ breaks_of spots.now from (to - from - 1) }
{
    let mut k = 0;
    for x in from + 1..to {
        if spots[x] != spots[x - 1] + 1 {
            k += 1;
        }
    }
    k
}

// `len` pixels whose places follow one another from i on, by the weights from `from` on: written from `to` on.
fn blend_row(
    part: &mut [f32],
    across: &[f32],
    down: &[f32],
    w: usize,
    i: usize,
    to: usize,
    from: usize,
    len: usize,
)
    requires { (i + len + w < to) × (to + len ≤ length part.old) × (from + len ≤ length across.now) × (from + len ≤ length down.now) }
    ensures { let xs = part.old in
        part.new ≡ put xs to (tab len (λ x. four_at xs w (i + x) (get_or across.now (from + x) nan) (get_or down.now (from + x) nan))) }
{
    for x in 0..len {
        let (a, b) = (across[from + x], down[from + x]);
        part[to + x] = blend(part, w, i + x, a, b);
    }
}

// The same pixels as `by_place`, where their places follow one another: one image after the other.
fn by_run(
    part: &mut [f32],
    spots: &[u32],
    across: &[f32],
    down: &[f32],
    w: usize,
    n: usize,
    at: usize,
    from: usize,
    to: usize,
)
    requires { (from < to) × (breaks_of spots.now from (to - from - 1) ≡ 0) × Placed n w at from to spots.now across.now down.now part.old }
    ensures { Taken n w at from to spots.now across.now down.now part.old part.new }
{
    let len = to - from;
    let i = spots[from] as usize;
    blend_row(part, across, down, w, i, 3 * n + at + from, from, len);
    blend_row(part, across, down, w, n + i, 4 * n + at + from, from, len);
    blend_row(
        part,
        across,
        down,
        w,
        2 * n + i,
        5 * n + at + from,
        from,
        len,
    );
}

// The same pixels, where a break lies somewhere among them: sixteen at a time, as a run or each by its own place.
fn by_blocks(
    part: &mut [f32],
    spots: &[u32],
    across: &[f32],
    down: &[f32],
    w: usize,
    n: usize,
    at: usize,
    from: usize,
    to: usize,
)
    requires { (n ≤ 16777216) × Placed n w at from to spots.now across.now down.now part.old }
    ensures { Taken n w at from to spots.now across.now down.now part.old part.new }
{
    // By hand: the last block may be shorter, and a range by steps of 16 is left in two places, each to be proved.
    let mut x = from;
    while x < to {
        let end = to.min(x + 16);
        let broken = breaks(spots, x, end);
        if broken == 0 {
            by_run(part, spots, across, down, w, n, at, x, end);
        } else {
            by_place(part, spots, across, down, w, n, at, x, end);
        }
        x = end;
    }
}

// The pixels from `from` to `to` of a piece that starts at the pixel `at`, each of them marked, are read by their places and weights. Three slices and no
// struct of arrays: it is said for slices of any length that suffices (`reads_stretch` in docs/DECISIONS.md, 19).
pub fn reads_stretch(
    part: &mut [f32],
    spots: &[u32],
    across: &[f32],
    down: &[f32],
    w: usize,
    n: usize,
    at: usize,
    from: usize,
    to: usize,
)
    requires { (n ≤ 16777216) × Placed n w at from to spots.now across.now down.now part.old }
    ensures { Taken n w at from to spots.now across.now down.now part.old part.new }
{
    if from < to {
        if breaks(spots, from, to) == 0 {
            by_run(part, spots, across, down, w, n, at, from, to);
        } else {
            by_blocks(part, spots, across, down, w, n, at, from, to);
        }
    }
}
