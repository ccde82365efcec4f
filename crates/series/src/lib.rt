// The cosine and the sine of an f32 from -2 to 2, and e^-a for a from 0 to 6, by whole numbers in units of 2^-30.
// Each follows document 01's recurrence to the last bit; every product is at most 2^62.
#![tactic(auto)]

ghost use Rattle.std.specs.Prelude.{◌≡◌, ◌+◌, ◌*◌, ◌/◌, ◌^◌, ◌≤◌, false};
ghost use Rattle.std.specs.Float.Ieee as Ieee;
ghost use Rattle.std.specs.Float.{binary32};
ghost use Rattle.floats.specs.Bound.{Within, UpTo};
ghost use Rattle.floats.specs.Units.{units_at};
ghost use Rattle.series.specs.Recurrence.{u_next, steps_of};
ghost use Rattle.series.specs.Series.{divisor_of, limit_of, lowest_of, z_of, y_of, squared_of, cos_of, sin_of, exp_neg_of};

// Which of the three recurrences: they differ in their divisors. By cases, and not by a closure: divisor_of and the bounds are by the same cases.
#[derive(Clone, Copy)]
pub enum Series {
    Cosine,
    Sine,
    Exponential,
}

// The divisor of the step for k.
fn divisor(s: Series, k: u64) -> u64
    requires { (lowest_of s ≤ k) × (k ≤ 12) }
    ensures { result ≡ divisor_of s k }
{
    match s {
        Series::Cosine => (2 * k - 1) * (2 * k),
        Series::Sine => 2 * k * (2 * k + 1),
        Series::Exponential => k,
    }
}

// 1 - z * u / d in units of 2^-30.
fn step(z: u64, d: u64, u: u64) -> u64
    requires { (z ≤ 2 ^ 32) × (1 ≤ d) × (d ≤ 600) × (z ≤ 2 ^ 30 * d) × (u ≤ 2 ^ 30) }
    ensures { (result ≡ u_next z d u) × (result ≤ 2 ^ 30) }
{
    0x4000_0000 - z * u / (0x4000_0000 * d)
}

// The first n steps of a recurrence that begins at k = top.
fn steps(s: Series, z: u64, top: u64, n: u64) -> u64
    requires { (z ≤ limit_of s) × (top ≤ 12) × (lowest_of s + n ≤ top + 1) }
    ensures { (result ≡ steps_of (divisor_of s) z top n) × (result ≤ 2 ^ 30) }
{
    let mut u: u64 = 0x4000_0000;
    for i in 0..n {
        u = step(z, divisor(s, top - i), u);
    }
    u
}

// v / 2^30 to f32: to the nearest, ties to even.
fn over30(v: u32) -> f32
    ensures { result ≡ Ieee.round binary32 false v (2 ^ 30) }
{
    std::num::nearest_u32_to_f32(v) * 0.000000000931322574615478515625
}

// The whole part of 2^30 times the square of a value up to 2, by the value's bit pattern.
fn square_of(b: u32) -> u64
    requires { b ≤ 0x4000_0000 }
    ensures { (result ≡ units_at b * units_at b * 2 ^ 30 / (2 ^ 149 * 2 ^ 149)) × (result ≤ 2 ^ 32) }
{
    let e = (b / 0x80_0000) as u64;
    if e < 104 {
        return 0;
    }
    let m = 0x80_0000 + ((b % 0x80_0000) as u64);
    (m * m) >> (270 - 2 * e)
}

// The whole part of 2^30 * theta^2.
fn z_of(theta: f32) -> u64
    requires { Within theta 2 1 }
    ensures { (result ≡ z_of theta) × (result ≤ 2 ^ 32) }
{
    square_of(f32::to_bits(theta) % 0x8000_0000)
}

// The cosine: the steps for k = 8 down to 2, then the one for k = 1, after which U may be below zero.
pub fn cos(theta: f32) -> f32
    requires { Within theta 2 1 }
    ensures { result ≡ cos_of theta }
{
    let z = z_of(theta);
    let w = z * steps(Series::Cosine, z, 8, 7) / 0x8000_0000;
    if w <= 0x4000_0000 {
        over30((0x4000_0000 - w) as u32)
    } else {
        -over30((w - 0x4000_0000) as u32)
    }
}

// The sine: the steps for k = 8 down to 1, to f32, times theta.
pub fn sin(theta: f32) -> f32
    requires { Within theta 2 1 }
    ensures { result ≡ sin_of theta }
{
    over30(steps(Series::Sine, z_of(theta), 8, 8) as u32) * theta
}

// The whole part of a * 2^27.
fn y_of(a: f32) -> u64
    requires { UpTo a 6 1 }
    ensures { (result ≡ y_of a) × (result ≤ 2 ^ 30) }
{
    std::num::truncating_f32_to_u64(a * 134217728.0)
}

// e * e in units of 2^-30, cut.
fn squared(e: u64) -> u64
    requires { e ≤ 2 ^ 30 }
    ensures { (result ≡ squared_of e) × (result ≤ 2 ^ 30) }
{
    e * e / 0x4000_0000
}

// e^-a.
pub fn exp_neg(a: f32) -> f32
    requires { UpTo a 6 1 }
    ensures { result ≡ exp_neg_of a }
{
    let e = steps(Series::Exponential, y_of(a), 12, 12);
    over30(squared(squared(squared(e))) as u32)
}
