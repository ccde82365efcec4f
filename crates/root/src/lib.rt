// The square root of an f32, by whole numbers: shifts, additions and comparisons, nothing else.
#![tactic(auto)]

ghost use Rattle.std.specs.Prelude.{◌≡◌, ◌+◌, ◌-◌, ◌*◌, ◌^◌, ◌≤◌, ◌<◌};
ghost use Rattle.std.specs.Float.Ieee as Ieee;
ghost use Rattle.std.specs.Float.{binary32};
ghost use Rattle.floats.specs.Units.{units_at};
ghost use Rattle.root.specs.Root.{sqrt_of};
ghost use Rattle.root.specs.Nearest.{Positive, NearestRoot};
ghost use Rattle.root.specs.Scaled.{Scaled};

// The largest r with r * r <= n, for an n of at most 50 binary digits: a digit of r at a time, from the highest. s is the square of the digits so far,
// p is twice them times the weight of the digit to come, and bit is the square of that weight: so s + p + bit is the square with that digit set.
fn isqrt(n: u64) -> u64
    requires { n < 2 ^ 50 }
    ensures { (result * result ≤ n) × (n < (result + 1) * (result + 1)) × (result < 2 ^ 25) }
{
    let mut s = 0u64;
    let mut p = 0u64;
    let mut bit = 0x1_0000_0000_0000u64;
    while bit > 0 {
        let t = s + p + bit;
        p = p >> 1;
        if t <= n {
            s = t;
            p = p + bit;
        }
        bit = bit >> 2;
    }
    p
}

// m * 4^h, with m of 24 or 25 binary digits.
#[derive(Clone, Copy)]
struct Normal {
    m: u64,
    h: u64,
}

// A subnormal value by its bit pattern b, which is the value in units of 2^-149: m * 4^h is 2^28 times that. Quartering m loses nothing: what goes is zero.
fn small_of(b: u32) -> Normal
    requires { (0 < b) × (b < 0x80_0000) }
    ensures { Scaled b result.m result.h }
{
    let mut m = (b as u64) << 24;
    let mut h = 2u64;
    while m >= 0x200_0000 {
        m = m >> 2;
        h += 1;
    }
    Normal { m, h }
}

// A positive finite value by its bit pattern: m * 4^h is 2^28 times the value in units of 2^-149. A pattern leaves out the first of the 24 digits; in its
// place stands the last digit of the exponent's field. Where that is 1, the low 24 digits are m. Where it is 0, the digit is put there, and m is twice that.
fn normal_of(b: u32) -> Normal
    requires { (0 < b) × (b < 0x7f80_0000) }
    ensures { Scaled (units_at b) result.m result.h }
{
    if b < 0x80_0000 {
        return small_of(b);
    }
    let low = (b << 8) >> 8;
    let h = (((b >> 23) as u64) + 27) >> 1;
    if low >= 0x80_0000 {
        return Normal { m: low as u64, h };
    }
    Normal {
        m: ((low + 0x80_0000) << 1) as u64,
        h,
    }
}

// The bit pattern of the root of a positive finite value, by that value's pattern. The root of a
// number of 49 or 50 digits has 25 digits, one more than a float keeps; no such root is half-way between two floats.
fn root_bits(b: u32) -> u32
    requires { (0 < b) × (b < 0x7f80_0000) }
    ensures { (result < 0x7f80_0000) × (Ieee.of_bits binary32 result ≡ sqrt_of (Ieee.of_bits binary32 b)) }
{
    let n = normal_of(b);
    let h = n.h;
    let t = isqrt(n.m << 25);
    (((h + 49) << 23) + ((t + 1) >> 1)) as u32
}

// IEEE 754's squareRoot: of a finite x above zero the nearest of all f32. The sum of both infinities is a NaN.
pub fn sqrt(x: f32) -> f32
    ensures value { result ≡ sqrt_of x }
    ensures nearest { Positive x → NearestRoot x result }
{
    if x != x {
        return x;
    }
    let b = f32::to_bits(x);
    if b == 0 {
        return x;
    }
    if b < 0x7f80_0000 {
        return f32::from_bits(root_bits(b));
    }
    if b == 0x7f80_0000 {
        return x;
    }
    if b == 0x8000_0000 {
        return x;
    }
    f32::from_bits(0x7f80_0000) + f32::from_bits(0xff80_0000)
}
