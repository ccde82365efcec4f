// places_row: where the pixels of a row of a warped image, or of a part of it, lie in the source, with their weights and flags. A flag tells
// whether its pixel is marked, and stands ready to be packed into a word (crate bits).
//
// A pixel is marked exactly when its computed point lies inside: 0 <= sx < w - 1 and 0 <= sy < h - 1 in f32, so never where the point is a
// NaN. The loop works out numbers alone and reads no image, so that the compiler can take several pixels at a time. It does so where no float
// is compared and no whole number is cast to a float: it calls the helpers of crate numbers that do neither (the head there says why). They ask
// for finite numbers, and the points of a map whose entries are small are finite. Of another map, whose points may be NaNs, floats are compared.
#![tactic(auto)]

ghost use Rattle.std.specs.Prelude.{◌≡◌, ◌+◌, ◌*◌, ◌^◌, ◌≤◌, ◌<◌, T, true, false, pos};
ghost use Rattle.std.specs.Float.{binary32};
ghost use Rattle.std.specs.Float.Ieee as Ieee;
ghost use Rattle.std.specs.Float.Ieee.{in_signed, to_signed, to_unsigned};
ghost use Rattle.std.specs.Float.Ieee.Scale.{finite};
ghost use Rattle.lists.specs.Marked.{pick};
ghost use Rattle.lists.specs.Premises.{InRange, Scratch};
ghost use Rattle.floats.specs.Bound.{Within};
ghost use Rattle.floats.specs.F32.{0f};
ghost use Rattle.numbers.specs.Numbers.{Unsigned};
ghost use Rattle.places.specs.Point.{sx_of, sy_of, inside, Small};
ghost use Rattle.places.specs.Places.{PlaceOf, PlacesOf};

// The source of a pixel: where the top left of its four pixels lies, the weights of the right and of the lower ones, and its flag.
#[derive(Clone, Copy)]
struct Place {
    at: u32,
    across: f32,
    down: f32,
    flag: u32,
}

// The computed point of the pixel x, y.
fn point_x(map: pose::Map, x: usize, y: usize) -> f32
    requires { (x ≤ 4096) × (y ≤ 4096) }
    ensures { result ≡ sx_of map x y }
{
    map.m00 * numbers::to_f32_short(x) + map.m01 * numbers::to_f32_short(y) + map.m02
}

fn point_y(map: pose::Map, x: usize, y: usize) -> f32
    requires { (x ≤ 4096) × (y ≤ 4096) }
    ensures { result ≡ sy_of map x y }
{
    map.m10 * numbers::to_f32_short(x) + map.m11 * numbers::to_f32_short(y) + map.m12
}

// Whether a is below b. With FINITE both are finite and b has no sign, so that no floats are compared.
fn is_below<const FINITE: bool>(a: f32, b: f32) -> bool
    requires { FINITE ≡ true → T (finite a) × Unsigned b }
    ensures { result ≡ Ieee.lt a b }
{
    if FINITE {
        numbers::is_below_finite(a, b)
    } else {
        a < b
    }
}

// Whether a point lies inside: a NaN never does.
fn is_inside<const FINITE: bool>(w: usize, h: usize, sx: f32, sy: f32) -> bool
    requires { InRange w h × (FINITE ≡ true → T (finite sx) × T (finite sy)) }
    ensures { result ≡ inside w h sx sy }
{
    let right = numbers::to_f32_short(w - 1);
    let low = numbers::to_f32_short(h - 1);
    !is_below::<FINITE>(sx, 0.0)
        & !is_below::<FINITE>(sy, 0.0)
        & is_below::<FINITE>(sx, right)
        & is_below::<FINITE>(sy, low)
}

// The number where it holds, else 0.
fn or_zero(holds: bool, s: f32) -> f32
    ensures { result ≡ pick holds s 0f }
{
    if holds { s } else { 0.0 }
}

// A whole number that is an f32, as one that indexes. By way of a signed number it is one instruction, and a loop takes several at a time.
fn index(v: f32) -> u32
    requires { T (in_signed binary32 31 v) × (to_signed 31 v ≡ pos (to_unsigned 32 v)) }
    ensures { result ≡ to_unsigned 32 v }
{
    v as i32 as u32
}

// Where a pixel lies in the source, its weights and its flag.
// With no branch, so that a row of them is taken several at a time: outside, the place is that of the point 0, 0, which nobody reads.
fn place_of<const FINITE: bool>(map: pose::Map, w: usize, h: usize, x: usize, y: usize) -> Place
    requires { (x < w) × (w ≤ 4096) × (y < h) × (h ≤ 4096) × (FINITE ≡ true → Small map) }
    ensures { PlaceOf map w h x y result }
{
    let sx = point_x(map, x, y);
    let sy = point_y(map, x, y);
    let within = is_inside::<FINITE>(w, h, sx, sy);
    let tx = or_zero(within, sx);
    let ty = or_zero(within, sy);
    let x0 = numbers::floor_small(tx);
    let y0 = numbers::floor_small(ty);
    let at = index(y0 * numbers::to_f32_short(w) + x0);
    let flag = bits::flag(within, y * w + x);
    Place {
        at,
        across: tx - x0,
        down: ty - y0,
        flag,
    }
}

// Whether a number is finite and not too large.
fn is_small(v: f32) -> bool
    ensures { result ≡ true → Within v (2 ^ 80) 1 }
{
    v <= 1208925819614629174706176.0 && v >= -1208925819614629174706176.0
}

// Whether each entry is small, so that each point is finite.
fn is_tame(map: pose::Map) -> bool
    ensures { result ≡ true → Small map }
{
    is_small(map.m00)
        && is_small(map.m01)
        && is_small(map.m02)
        && is_small(map.m10)
        && is_small(map.m11)
        && is_small(map.m12)
}

// Places, weights and flags of the `len` pixels from x on of the row y.
fn fill_row<const FINITE: bool>(
    spots: &mut [u32],
    across: &mut [f32],
    down: &mut [f32],
    flags: &mut [u32],
    map: pose::Map,
    w: usize,
    h: usize,
    x: usize,
    y: usize,
    len: usize,
)
    requires { (w ≤ 4096) × (y < h) × (h ≤ 4096) × (x + len ≤ w) × Scratch len spots.old across.old down.old flags.old × (FINITE ≡ true → Small map) }
    ensures { PlacesOf map w h x y len spots.new across.new down.new flags.new }
{
    for k in 0..len {
        let p = place_of::<FINITE>(map, w, h, x + k, y);
        spots[k] = p.at;
        across[k] = p.across;
        down[k] = p.down;
        flags[k] = p.flag;
    }
}

// The same, by the way that the map allows. Four slices and no struct of arrays: it is said for slices of any length that suffices (`places_row` in
// docs/DECISIONS.md, 19).
pub fn places_row(
    spots: &mut [u32],
    across: &mut [f32],
    down: &mut [f32],
    flags: &mut [u32],
    map: pose::Map,
    w: usize,
    h: usize,
    x: usize,
    y: usize,
    len: usize,
)
    requires { (w ≤ 4096) × (y < h) × (h ≤ 4096) × (x + len ≤ w) × Scratch len spots.old across.old down.old flags.old }
    ensures { PlacesOf map w h x y len spots.new across.new down.new flags.new }
{
    if is_tame(map) {
        fill_row::<true>(spots, across, down, flags, map, w, h, x, y, len);
    } else {
        fill_row::<false>(spots, across, down, flags, map, w, h, x, y, len);
    }
}
