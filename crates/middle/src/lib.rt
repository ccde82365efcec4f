// How far a point moves along one axis under a row of a matrix, in 1/256 pixel: exact whole numbers, rounded once.
//
// A finite f32 is a whole number of units of 2^-149. Sums of such numbers are kept whole, in three digits of 60 bits.
#![tactic(auto)]

ghost use Rattle.std.specs.Prelude.{◌≡◌, ◌+◌, ◌-◌, ◌*◌, ◌/◌, ◌%◌, ◌^◌, ◌≤◌, ◌<◌, T, ltb};
ghost use Rattle.std.specs.Float.Ieee.Scale.{finite};
ghost use Rattle.floats.specs.Bound.{Within};
ghost use Rattle.floats.specs.Units.{units_at};
ghost use Rattle.middle.specs.Held.{capped_of, nearest_whole, difference_of};
ghost use Rattle.middle.specs.Wide.{wide_of, lower_of, Tidy, pattern_share};
ghost use Rattle.middle.specs.Motion.{motion_of};

// A whole number in three digits: (high * 2^60 + mid) * 2^60 + low.
#[derive(Clone, Copy, PartialEq, Eq, PartialOrd, Ord)]
struct Wide {
    high: u64,
    mid: u64,
    low: u64,
}

// p * 2^k. What a shift to the left drives past the 60 bits of a digit is the next digit.
fn shifted(p: u64, k: u64) -> Wide
    requires { (p < 2 ^ 36) × (k < 140) }
    ensures { (wide_of result ≡ p * 2 ^ k) × Tidy result × (result.high < 2 ^ 55) }
{
    if k >= 120 {
        return Wide {
            high: p << (k - 120),
            mid: 0,
            low: 0,
        };
    }
    if k >= 60 {
        return Wide {
            high: p >> (120 - k),
            mid: (p << (k - 60)) % 0x1000_0000_0000_0000,
            low: 0,
        };
    }
    Wide {
        high: 0,
        mid: p >> (60 - k),
        low: (p << k) % 0x1000_0000_0000_0000,
    }
}

// f times the size of a value below 2^14, in units, by the value's bit pattern, the sign's bit left out.
fn sized(b: u32, f: u64) -> Wide
    requires { (b < 0x4680_0000) × (f ≤ 4095) }
    ensures { (wide_of result ≡ units_at b * f) × Tidy result × (result.high < 2 ^ 55) }
{
    let e = (b / 0x80_0000) as u64;
    if e == 0 {
        return shifted((b as u64) * f, 0);
    }
    shifted((0x80_0000 + ((b % 0x80_0000) as u64)) * f, e - 1)
}

// f times the size of a value, if its sign is the one that is asked for, and else 0.
fn share(b: u32, f: u64, back: bool) -> Wide
    requires { (b % 0x8000_0000 < 0x4680_0000) × (f ≤ 4095) }
    ensures { (wide_of result ≡ pattern_share back b * f) × Tidy result × (result.high < 2 ^ 55) }
{
    if (b >= 0x8000_0000) == back {
        sized(b % 0x8000_0000, f)
    } else {
        shifted(0, 0)
    }
}

fn plus(x: Wide, y: Wide) -> Wide
    requires { Tidy x × Tidy y × (x.high + y.high < 2 ^ 60) }
    ensures { (wide_of result ≡ wide_of x + wide_of y) × Tidy result × (result.high ≤ x.high + y.high + 1) }
{
    let low = x.low + y.low;
    let mid = x.mid + y.mid + low / 0x1000_0000_0000_0000;
    Wide {
        high: x.high + y.high + mid / 0x1000_0000_0000_0000,
        mid: mid % 0x1000_0000_0000_0000,
        low: low % 0x1000_0000_0000_0000,
    }
}

// Of the three terms of a row those with the sign that is asked for: p * a + q * b + t * 2.
fn shares(p: u32, a: u64, q: u32, b: u64, t: u32, back: bool) -> Wide
    requires p_bound { (p % 0x8000_0000 < 0x4680_0000) × (q % 0x8000_0000 < 0x4680_0000) × (t % 0x8000_0000 < 0x4680_0000) }
    requires a_bound { (a ≤ 4095) × (b ≤ 4095) }
    ensures { (wide_of result ≡ pattern_share back p * a + pattern_share back q * b + pattern_share back t * 2) × Tidy result × (result.high < 2 ^ 57) }
{
    plus(
        plus(share(p, a, back), share(q, b, back)),
        share(t, 2, back),
    )
}

// Whether x is less than y, by the two lower digits.
fn lower(x: Wide, y: Wide) -> bool
    requires { Tidy x × Tidy y }
    ensures { result ≡ ltb (lower_of x) (lower_of y) }
{
    (x.mid, x.low) < (y.mid, y.low)
}

// The highest digit of x - y.
fn top(x: Wide, y: Wide) -> u64
    requires { Tidy x × Tidy y × (wide_of y ≤ wide_of x) }
    ensures { (result ≡ (wide_of x - wide_of y) / 2 ^ 120) × (result ≤ x.high) }
{
    x.high - y.high - u64::from(lower(x, y))
}

// A size with its sign, held to -32768..32767.
fn held(back: bool, n: u64) -> i16
    ensures { result ≡ capped_of back n }
{
    if back {
        return -(n.min(32768) as i64) as i16;
    }
    n.min(32767) as i16
}

// x - y to the nearest step of 1/256 pixel: 2^142 of these numbers are one step, 2^22 in the highest digit.
fn rounded(x: Wide, y: Wide) -> u64
    requires { Tidy x × Tidy y × (wide_of y ≤ wide_of x) × (x.high < 2 ^ 60) }
    ensures { result ≡ nearest_whole (128 * (wide_of x - wide_of y)) (2 ^ 149) }
{
    (top(x, y) + 0x20_0000) / 0x40_0000
}

// The same with its sign, held.
fn settled(x: Wide, y: Wide) -> i16
    requires { Tidy x × Tidy y × (x.high < 2 ^ 60) × (y.high < 2 ^ 60) }
    ensures { result ≡ difference_of (128 * wide_of x) (128 * wide_of y) (2 ^ 149) }
{
    if x < y {
        return held(true, rounded(y, x));
    }
    held(false, rounded(x, y))
}

// How far the point (a/2, b/2) moves along the first axis, in 1/256 pixel, where the row p, q, t of a matrix gives its image there. From 2^14 on the
// shift t alone decides: p and q move the point by less than 2^13.
pub fn motion(p: f32, a: u64, q: f32, b: u64, t: f32) -> i16
    requires within { Within p 1 1 × Within q 2 1 × T (finite t) }
    requires a_bound { (a ≤ 4095) × (b ≤ 4095) }
    ensures { result ≡ motion_of p a q b t }
{
    let shift = f32::to_bits(t);
    if shift % 0x8000_0000 >= 0x4680_0000 {
        return held(shift >= 0x8000_0000, 32768);
    }
    // what is added, and what is taken away: with the point itself, 1.0 times a
    let row = f32::to_bits(p);
    let across = f32::to_bits(q);
    let gain = shares(row, a, across, b, shift, false);
    let loss = plus(
        shares(row, a, across, b, shift, true),
        sized(0x3f80_0000, a),
    );
    settled(gain, loss)
}
