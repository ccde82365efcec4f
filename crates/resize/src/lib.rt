// resize_bilinear: bytes to an image of other sides. Document 000 indexes with what it computes; for all sides up to 4,096 the four
// source pixels of each target pixel lie inside the frame, which is proved, so there is no clamp. A weight may be negative.
#![tactic(auto)]

ghost use Rattle.std.specs.Prelude.{◌≡◌, ◌+◌, ◌-◌, ◌*◌, ◌≤◌, ◌<◌, min, length};
ghost use Rattle.lists.specs.Lists.{tab, put};
ghost use Rattle.lists.specs.Premises.{InRange};
ghost use Rattle.floats.specs.F32.{f32};
ghost use Rattle.resize.specs.Resize.{place_of, tap_of, byte_of, lerp_of, bilinear_of, resize_of};

// Two indices of a side, and the weight of the second. A side is at most 4,096, so 16 bits hold an index, and the stack a tap for each column.
#[derive(Clone, Copy, Default)]
pub struct Tap {
    pub first: u16,
    pub next: u16,
    pub weight: f32,
}

// The point of the source, along one side, that the target place d stands for.
fn place(src: usize, dst: usize, d: usize) -> f32
    requires { (src ≤ 4096) × (dst ≤ 4096) × (d < dst) }
    ensures { result ≡ place_of src dst d }
{
    let scale = numbers::to_f32(src) / numbers::to_f32(dst);
    (numbers::to_f32(d) + 0.5) * scale - 0.5
}

// The index after `first`, held to the last.
fn next(first: usize, src: usize) -> usize
    requires { (first < src) × (src ≤ 4096) }
    ensures { (result ≡ min (first + 1) (src - 1)) × (result < src) }
{
    (first + 1).min(src - 1)
}

// The tap of a target place. The cast drops a fraction and gives 0 below zero, which is floor().max(0.0).
fn tap_at(src: usize, dst: usize, d: usize) -> Tap
    requires { (1 ≤ src) × (src ≤ 4096) × (dst ≤ 4096) × (d < dst) }
    ensures { (result ≡ tap_of src dst d) × (result.first < src) × (result.next < src) }
{
    let s = place(src, dst, d);
    let first = numbers::as_usize(s);
    let second = next(first, src);
    let base = numbers::to_f32(first);
    Tap {
        first: first as u16,
        next: second as u16,
        weight: s - base,
    }
}

// The taps of all columns, stored: they are the same in each row.
fn columns(src: usize, taps: &mut [Tap])
    requires { (1 ≤ src) × (src ≤ 4096) × (length taps.old ≤ 4096) }
    ensures { taps.new ≡ tab (length taps.old) (tap_of src (length taps.old)) }
{
    let dst = taps.len();
    for x in 0..dst {
        taps[x] = tap_at(src, dst, x);
    }
}

// The byte in column x of row y.
fn gray(src: &[u8], w: usize, x: u16, y: u16) -> f32
    requires { (x < w) × («y» * w + w ≤ length src.now) }
    ensures { result ≡ byte_of src.now w x y }
{
    let row = usize::from(y);
    let column = usize::from(x);
    numbers::byte_to_f32(src[row * w + column])
}

// From a to b, by the weight of b.
fn blend(w: f32, a: f32, b: f32) -> f32
    ensures { result ≡ lerp_of w a b }
{
    (1.0 - w) * a + w * b
}

// The four pixels of two taps, blended.
fn sample(src: &[u8], w: usize, tx: Tap, ty: Tap) -> f32
    requires { (tx.first < w) × (tx.next < w) × (ty.first * w + w ≤ length src.now) × (ty.next * w + w ≤ length src.now) }
    ensures { result ≡ bilinear_of src.now w tx ty }
{
    let above = blend(
        tx.weight,
        gray(src, w, tx.first, ty.first),
        gray(src, w, tx.next, ty.first),
    );
    let below = blend(
        tx.weight,
        gray(src, w, tx.first, ty.next),
        gray(src, w, tx.next, ty.next),
    );
    blend(ty.weight, above, below)
}

// A row of the target, put at `at`.
fn resize_row(src: &[u8], src_w: usize, taps: &[Tap], ty: Tap, out: &mut [f32], at: usize)
    requires { (1 ≤ src_w) × (src_w ≤ 4096) × (length taps.now ≤ 4096) × (taps.now ≡ tab (length taps.now) (tap_of src_w (length taps.now)))
        × (ty.first * src_w + src_w ≤ length src.now) × (ty.next * src_w + src_w ≤ length src.now)
        × (at + length taps.now ≤ length out.old) }
    ensures { out.new ≡ put out.old at
        (tab (length taps.now) (λ x. bilinear_of src.now src_w (tap_of src_w (length taps.now) x) ty)) }
{
    for x in 0..taps.len() {
        out[at + x] = sample(src, src_w, taps[x], ty);
    }
}

// All rows, one after another; the tap of a row is worked out once.
fn resize_rows(src: &[u8], src_w: usize, src_h: usize, taps: &[Tap], dst_h: usize, out: &mut [f32])
    requires { InRange src_w src_h × (length taps.now ≤ 4096) × (dst_h ≤ 4096) × (src_w * src_h ≤ length src.now)
        × (length taps.now * dst_h ≤ length out.old) × (taps.now ≡ tab (length taps.now) (tap_of src_w (length taps.now))) }
    ensures { out.new ≡ put out.old 0 (resize_of src.now src_w src_h (length taps.now) dst_h) }
{
    let dst_w = taps.len();
    for y in 0..dst_h {
        let ty = tap_at(src_h, dst_h, y);
        resize_row(src, src_w, taps, ty, out, y * dst_w);
    }
}

// The front of `out` becomes the image. The taps of the columns are worked out once, and not at each pixel.
pub fn resize_bilinear(
    src: &[u8],
    src_w: usize,
    src_h: usize,
    dst_w: usize,
    dst_h: usize,
    out: &mut [f32],
)
    requires { InRange src_w src_h × InRange dst_w dst_h × (src_w * src_h ≤ length src.now)
        × (dst_w * dst_h ≤ length out.old) }
    ensures { out.new ≡ put out.old 0 (resize_of src.now src_w src_h dst_w dst_h) }
{
    let mut store = [Tap::default(); 4096];
    let taps = &mut store[..dst_w];
    columns(src_w, taps);
    resize_rows(src, src_w, src_h, taps, dst_h, out);
}
