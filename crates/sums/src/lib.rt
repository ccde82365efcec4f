// The sums of the second half of a pass: j0, and what is summed over the marked pixels.
//
// It is lent six images one after another: 0 and 1 the warped gradients, 3 and 4 the centred template and image; it leaves j0 in
// image 5, in the rows that hold a mark. Image 2 is not looked at. The sums keep the order of the pixels, walk the pixels that all marks lie
// between, and go by stretches of marked ones, in which no pixel is tested.
//
// h, image_proj and template_proj are sixteen sums, four of them at a time: j0, j1, j2 and image_zm of a pixel side by side, times its j0, its
// j1, its j2 and its template_zm. For that some pixels' four numbers are laid out in a small scratch first. docs/SPEED.md says what of this
// form the compiler needs, and `tools/speed --check` whether it still finds it.
#![tactic(auto)]

ghost use Rattle.std.specs.Prelude.{◌≡◌, ℕ, ◌+◌, ◌-◌, ◌*◌, ◌≤◌, ◌<◌, min, length, get_or};
ghost use Rattle.std.specs.Float.{nan};
ghost use Rattle.std.specs.Float.Ieee.{neg};
ghost use Rattle.lists.specs.Lists.{tab, put, image};
ghost use Rattle.lists.specs.Marked.{words_for};
ghost use Rattle.floats.specs.Bound.{Within};
ghost use Rattle.floats.specs.F32.{◌⊕◌, ◌⊖◌, ◌⊗◌, f32, 0f};
ghost use Rattle.bits.specs.Words.{unpacked_of};
ghost use Rattle.rows.specs.Between.{Between, rows_in};
ghost use Rattle.sums.specs.Steps.{j_at, scaled_more};
ghost use Rattle.sums.specs.Fours.{four_in, four_more, quad_at, FourPut, Spread, SumsMore};
ghost use Rattle.sums.specs.Sums.{steep_of, proj_of, hessian_of, error_of};

use inverse::{Matrix3, Vector3};

// Four numbers side by side.
#[derive(Clone, Copy)]
struct Four(f32, f32, f32, f32);

// What is summed over the marked pixels before lambda is known.
#[derive(Clone, Copy)]
pub struct Sums {
    pub h: Matrix3,
    pub image_proj: Vector3,
    pub template_proj: Vector3,
}

// One row of j0: the w pixels from `row` on. yc and ys are y * ct and y * st.
fn steep_row(part: &mut [f32], n: usize, row: usize, w: usize, ct: f32, st: f32, yc: f32, ys: f32)
    requires { (w ≤ 4096) × (row + w ≤ n) × (6 * n ≤ length part.old) }
    ensures { part.new ≡ put part.old (5 * n + row) (tab w (λ x.
        get_or part.old (row + x) nan ⊗ (neg (f32 x ⊗ st) ⊖ yc) ⊕ get_or part.old (n + row + x) nan ⊗ (f32 x ⊗ ct ⊖ ys))) }
{
    let gy = n + row;
    let to = 5 * n + row;
    for x in 0..w {
        let xf = numbers::to_f32_short(x);
        part[to + x] = part[row + x] * (-(xf * st) - yc) + part[gy + x] * (xf * ct - ys);
    }
}

// j0 = gxw * hat_x + gyw * hat_y, with hat_x = -(x * st) - (y * ct) and hat_y = (x * ct) - (y * st).
// In the rows from `first` to `last`; the others stay.
pub fn steep(part: &mut [f32], w: usize, h: usize, first: usize, last: usize, theta: f32)
    requires { (w ≤ 4096) × (h ≤ 4096) × (first ≤ last) × (last < h) × (6 * (w * h) ≤ length part.old) × Within theta 2 1 }
    ensures { part.new ≡ put part.old (5 * (w * h) + first * w)
        (rows_in first last w (steep_of w h theta (image (w * h) 0 part.old) (image (w * h) 1 part.old))) }
{
    let n = w * h;
    let ct = series::cos(theta);
    let st = series::sin(theta);
    for y in first..=last {
        let yf = numbers::to_f32_short(y);
        steep_row(part, n, y * w, w, ct, st, yf * ct, yf * st);
    }
}

// j of a pixel.
fn j_at(part: &[f32], n: usize, i: usize) -> Vector3
    requires { (i < n) × (6 * n ≤ length part.now) }
    ensures { result ≡ j_at part.now n i }
{
    Vector3(part[5 * n + i], part[i], part[n + i])
}

// A pixel's products with v added: s + j * v.
fn add_scaled(s: Vector3, j: Vector3, v: f32) -> Vector3
    ensures { result ≡ scaled_more s j v }
{
    Vector3(s.0 + j.0 * v, s.1 + j.1 * v, s.2 + j.2 * v)
}

// The four numbers from i on.
fn read_four(m: &[f32], i: usize) -> Four
    requires { i + 4 ≤ length m.now }
    ensures { result ≡ four_in m.now i }
{
    Four(m[i], m[i + 1], m[i + 2], m[i + 3])
}

// They become v; the others stay.
fn put_four(m: &mut [f32], i: usize, v: Four)
    requires { i + 4 ≤ length m.old }
    ensures { FourPut i v m.old m.new }
{
    m[i] = v.0;
    m[i + 1] = v.1;
    m[i + 2] = v.2;
    m[i + 3] = v.3;
}

// s + v * k.
fn add_four(s: Four, v: Four, k: f32) -> Four
    ensures { result ≡ four_more s v k }
{
    Four(s.0 + v.0 * k, s.1 + v.1 * k, s.2 + v.2 * k, s.3 + v.3 * k)
}

// j0, j1, j2 and image_zm of the `len` pixels from `at` on, side by side, a pixel after the other.
fn spread(part: &[f32], m: &mut [f32], n: usize, at: usize, len: usize)
    requires { (len ≤ 64) × (at + len ≤ n) × (6 * n ≤ length part.now) × (4 * len ≤ length m.old) }
    ensures { Spread part.now n at len m.old m.new }
{
    for k in 0..len {
        let i = at + k;
        m[4 * k] = part[5 * n + i];
        m[4 * k + 1] = part[i];
        m[4 * k + 2] = part[n + i];
        m[4 * k + 3] = part[4 * n + i];
    }
}

// The sums from q on, with these `len` pixels added. `left` has a one for each pixel that is still to come: of a count that it could follow
// the compiler would make four pixels at a time, and add their numbers lane by lane.
fn add_spread(part: &[f32], m: &mut [f32], q: usize, n: usize, at: usize, len: usize)
    requires { (0 < len) × (len ≤ 64) × (at + len ≤ n) × (6 * n ≤ length part.now) × (4 * len ≤ q) × (q + 16 ≤ length m.old)
        × ((k : ℕ) → k < len → four_in m.old (4 * k) ≡ quad_at part.now n (at + k)) }
    ensures { SumsMore part.now n q at len m.old m.new }
{
    let mut a = read_four(m, q);
    let mut b = read_four(m, q + 4);
    let mut c = read_four(m, q + 8);
    let mut d = read_four(m, q + 12);
    let mut left = u64::MAX >> (64 - len);
    let mut k = 0;
    // By hand: a range is counted, and slower (docs/SPEED.md, "What the compiler needs").
    while left != 0 {
        let i = at + k;
        let v = read_four(m, 4 * k);
        a = add_four(a, v, part[5 * n + i]);
        b = add_four(b, v, part[i]);
        c = add_four(c, v, part[n + i]);
        d = add_four(d, v, part[3 * n + i]);
        left = left >> 1;
        k += 1;
    }
    put_four(m, q, a);
    put_four(m, q + 4, b);
    put_four(m, q + 8, c);
    put_four(m, q + 12, d);
}

// A stretch of pixels, each of them marked, added to the sums from q on.
fn project_stretch(part: &[f32], m: &mut [f32], q: usize, n: usize, from: usize, to: usize)
    requires { (from ≤ to) × (to ≤ n) × (6 * n ≤ length part.now) × (q ≡ 4 * min 64 n) × (q + 16 ≤ length m.old) }
    ensures { SumsMore part.now n q from (to - from) m.old m.new }
{
    let mut i = from;
    // By hand: how far a turn goes is worked out in it, so a range has nothing to count.
    while i < to {
        let len = numbers::least(64, to - i);
        spread(part, m, n, i, len);
        add_spread(part, m, q, n, i, len);
        i += len;
    }
}

// h, image_proj and template_proj. All marks lie from the pixel `from` on, before `to`. The sums stand behind the pixels that are laid out, at
// q: at a fixed place the compiler would take them apart.
pub fn project(part: &[f32], marks: &[u64], n: usize, from: usize, to: usize) -> Sums
    requires { (n ≤ 16777216) × (6 * n ≤ length part.now) × (words_for n ≤ length marks.now) × Between (unpacked_of marks.now n) n from to }
    ensures { let ms = unpacked_of marks.now n in let xs = part.now in
        (result.h ≡ hessian_of ms n (image n 5 xs) (image n 0 xs) (image n 1 xs))
        × (result.image_proj ≡ proj_of ms n (image n 5 xs) (image n 0 xs) (image n 1 xs) (image n 4 xs))
        × (result.template_proj ≡ proj_of ms n (image n 5 xs) (image n 0 xs) (image n 1 xs) (image n 3 xs)) }
{
    let mut m = [0.0f32; 272];
    let q = 4 * numbers::least(64, n);
    for r in bits::marked_stretches(marks, from, to) {
        project_stretch(part, &mut m, q, n, r.from, r.to);
    }
    let a = read_four(&m, q);
    let b = read_four(&m, q + 4);
    let c = read_four(&m, q + 8);
    let d = read_four(&m, q + 12);
    Sums {
        h: Matrix3 {
            m00: a.0,
            m01: b.0,
            m02: c.0,
            m10: a.1,
            m11: b.1,
            m12: c.1,
            m20: a.2,
            m21: b.2,
            m22: c.2,
        },
        image_proj: Vector3(a.3, b.3, c.3),
        template_proj: Vector3(d.0, d.1, d.2),
    }
}

// error_proj: the sums of j with e = lambda * template_zm - image_zm. All marks lie from the pixel `from` on, before `to`.
pub fn errors(part: &[f32], marks: &[u64], n: usize, from: usize, to: usize, lambda: f32) -> Vector3
    requires { (n ≤ 16777216) × (6 * n ≤ length part.now) × (words_for n ≤ length marks.now) × Between (unpacked_of marks.now n) n from to }
    ensures { let ms = unpacked_of marks.now n in let xs = part.now in
        result ≡ proj_of ms n (image n 5 xs) (image n 0 xs) (image n 1 xs) (error_of n lambda (image n 3 xs) (image n 4 xs)) }
{
    let none = Vector3(0.0, 0.0, 0.0);
    bits::fold_marked(marks, from, to, none, |ep, i| {
        let e = lambda * part[3 * n + i] - part[4 * n + i];
        add_scaled(ep, j_at(part, n, i), e)
    })
}
