// gaussian_blur_separable, for the odd sizes 3 to 31. (Size 1 leaves an image as it is.)
//
// The blur is lent three images one after another: it reads the first, leaves the pass along the rows in the second and the blurred
// image in the third. Edge pixels are repeated. Each pixel's products are added in the kernel's order, from +0, each operation
// rounded once; the loop over a row's pixels is the innermost, so that the compiler can take several pixels at once.
#![tactic(auto)]

ghost use Rattle.std.specs.Prelude.{◌≡◌, ◌+◌, ◌-◌, ◌*◌, ◌%◌, ◌≤◌, ◌<◌, min, length, take};
ghost use Rattle.lists.specs.Lists.{tab, put, image, set_image};
ghost use Rattle.lists.specs.Premises.{InRange, OddFilter};
ghost use Rattle.blur.specs.Blur.{clamped_of, rows_of, columns_of};
ghost use Rattle.blur.specs.Pass.{added_of, spot_of, taps_of, sweep_of};

// To each of the `len` numbers from `dst` on, the one as far behind `src` times the weight is added.
fn add_run(part: &mut [f32], dst: usize, src: usize, len: usize, weight: f32)
    requires { (src + len ≤ dst) × (dst + len ≤ length part.old) }
    ensures { part.new ≡ added_of part.old dst len (λ i. src + i) weight }
{
    for i in 0..len {
        part[dst + i] += part[src + i] * weight;
    }
}

// To each of the `len` numbers from `dst` on, the one at `src` times the weight is added. No twin of add_run: here the product is worked out
// once, before the loop.
fn add_same(part: &mut [f32], dst: usize, src: usize, len: usize, weight: f32)
    requires { (src < dst) × (dst + len ≤ length part.old) }
    ensures { part.new ≡ added_of part.old dst len (λ _. src) weight }
{
    let v = part[src] * weight;
    for i in 0..len {
        part[dst + i] += v;
    }
}

// A tap of a row of w pixels that reads n pixels to the left: the first pixel is repeated.
fn add_left(part: &mut [f32], dst: usize, src: usize, w: usize, n: usize, weight: f32)
    requires { (src + w ≤ dst) × (1 ≤ w) × (dst + w ≤ length part.old) }
    ensures { part.new ≡ added_of part.old dst w (λ x. src + (x - n)) weight }
{
    let m = n.min(w);
    add_same(part, dst, src, m, weight);
    add_run(part, dst + m, src, w - m, weight);
}

// A tap of a row of w pixels that reads n pixels to the right: the last pixel is repeated.
fn add_right(part: &mut [f32], dst: usize, src: usize, w: usize, n: usize, weight: f32)
    requires { (src + w ≤ dst) × (1 ≤ w) × (dst + w ≤ length part.old) }
    ensures { part.new ≡ added_of part.old dst w (λ x. src + min (x + n) (w - 1)) weight }
{
    let m = n.min(w);
    add_run(part, dst, src + m, w - m, weight);
    add_same(part, dst + (w - m), src + (w - 1), m, weight);
}

// Which way a pass goes: along the rows or down the columns. By cases, and not by a closure: spot_of and the sums over it are by the same cases.
#[derive(Clone, Copy)]
enum Along {
    Rows,
    Columns,
}

// p + k - radius, held to 0..n - 1.
fn held(ksize: usize, n: usize, p: usize, k: usize) -> usize
    requires { (ksize ≤ 31) × (k < ksize) × (p < n) × (n ≤ 4096) }
    ensures { (result ≡ clamped_of ksize n p k) × (result < n) }
{
    (p + k).saturating_sub(ksize / 2).min(n - 1)
}

// The tap k of the row y, from the first image of the part, is added to the w numbers from `dst` on.
fn add_tap(
    along: Along,
    part: &mut [f32],
    dst: usize,
    w: usize,
    h: usize,
    ksize: usize,
    y: usize,
    k: usize,
    weight: f32,
)
    requires { (1 ≤ w) × (w ≤ 4096) × (y < h) × (h ≤ 4096) × (ksize ≤ 31) × (k < ksize) × (w * h ≤ dst) × (dst + w ≤ length part.old) }
    ensures { part.new ≡ added_of part.old dst w (λ x. spot_of along ksize w h x y k) weight }
{
    match along {
        Along::Rows => {
            let radius = ksize / 2;
            if k < radius {
                add_left(part, dst, y * w, w, radius - k, weight);
            } else {
                add_right(part, dst, y * w, w, k - radius, weight);
            }
        }
        Along::Columns => {
            let row = held(ksize, h, y, k);
            add_run(part, dst, row * w, w, weight);
        }
    }
}

// The row y of a pass, from the first image of the part to the second.
fn blur_row(along: Along, part: &mut [f32], ks: &[f32], w: usize, h: usize, ksize: usize, y: usize)
    requires { (1 ≤ w) × (w ≤ 4096) × (y < h) × (h ≤ 4096) × (ksize ≤ 31) × (ksize ≤ length ks.now) × (w * h + y * w + w ≤ length part.old) }
    ensures { part.new ≡ put part.old (w * h + y * w)
        (tab w (λ x. taps_of along ks.now ksize w h (take (w * h) part.old) ksize x y)) }
{
    let dst = w * h + y * w;
    zeros::fill_floats(part, dst, w);
    for k in 0..ksize {
        add_tap(along, part, dst, w, h, ksize, y, k, ks[k]);
    }
}

// A pass from the first image of the part to the second.
fn blur_pass(along: Along, part: &mut [f32], ks: &[f32], w: usize, h: usize, ksize: usize)
    requires { InRange w h × (ksize ≤ 31) × (ksize ≤ length ks.now) × (2 * (w * h) ≤ length part.old) }
    ensures { part.new ≡ set_image (w * h) 1 (sweep_of along ks.now ksize w h (image (w * h) 0 part.old))
        part.old }
{
    for y in 0..h {
        blur_row(along, part, ks, w, h, ksize, y);
    }
}

// The second image of the part becomes the pass along the rows, the third the blurred image.
pub fn gaussian_blur_separable(part: &mut [f32], w: usize, h: usize, ksize: usize)
    requires { InRange w h × (3 ≤ ksize) × OddFilter ksize × (3 * (w * h) ≤ length part.old) }
    ensures { part.new ≡
        set_image (w * h) 2 (columns_of ksize w h (rows_of ksize w h (image (w * h) 0 part.old)))
        (set_image (w * h) 1 (rows_of ksize w h (image (w * h) 0 part.old)) part.old) }
{
    let mut ks = [0.0f32; 31];
    kernel::gaussian_kernel(ksize, &mut ks);
    blur_pass(Along::Rows, part, &ks[..ksize], w, h, ksize);
    let n = w * h;
    blur_pass(Along::Columns, &mut part[n..], &ks[..ksize], w, h, ksize);
}
