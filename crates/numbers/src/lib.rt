// Small helpers on f32 and whole numbers. Each gives exactly what its definition in specs/Numbers.antt says, for
// every input; a whole number becomes an f32 only up to 2^24, below which nothing is lost.
//
// The compiler can take several turns of a loop at a time where the loop compares no floats and casts no whole number to a float: the kit puts a
// fence around each of these, and no loop with a fence is taken so. to_f32_short, is_below_finite and floor_small do without, by the bits of
// an f32, and are for such loops.
#![tactic(auto)]

ghost use Rattle.std.specs.Prelude.{◌≡◌, ◌*◌, ◌^◌, ◌≤◌, T, min, pos};
ghost use Rattle.std.specs.Float.Ieee as Ieee;
ghost use Rattle.std.specs.Float.{binary32};
ghost use Rattle.std.specs.Float.Ieee.Scale.{finite};
ghost use Rattle.numbers.specs.Numbers.{abs_of, floor_of, round_of, Unsigned};
ghost use Rattle.lists.specs.Marked.{pick};
ghost use Rattle.floats.specs.Bound.{UpTo};
ghost use Rattle.floats.specs.F32.{0f, 1f};

// The smaller.
pub fn least(a: usize, b: usize) -> usize
    ensures { result ≡ min a b }
{
    a.min(b)
}

// n as an f32, exactly.
pub fn to_f32(n: usize) -> f32
    requires { n ≤ 2 ^ 24 }
    ensures { result ≡ Ieee.of_int binary32 (pos n) }
{
    n as f32
}

// A number below 2^16 as an f32, exactly and with no cast: from 2^23 on the bits of an f32 count by ones.
pub fn to_f32_short(n: usize) -> f32
    requires { n ≤ 65535 }
    ensures { result ≡ Ieee.of_int binary32 (pos n) }
{
    f32::from_bits(0x4b00_0000 + n as u32) - 8388608.0
}

// A byte as an f32, exactly.
pub fn byte_to_f32(b: u8) -> f32
    ensures { result ≡ Ieee.of_int binary32 (pos b) }
{
    f32::from(b)
}

// Rust's `x as usize`: the fraction dropped, 0 for a NaN and below zero, usize::MAX from 2^64 on.
pub fn as_usize(x: f32) -> usize
    ensures { result ≡ Ieee.to_unsigned 64 x }
{
    std::num::saturating_f32_to_usize(x)
}

// Whether x is neither a NaN nor an infinity.
#[tactic(auto, using(crate::proofs::Sizes::finite_is))]
pub fn is_finite(x: f32) -> bool
    ensures { result ≡ finite x }
{
    x.is_finite()
}

// The size of x: the sign is cleared, that of a zero too.
#[tactic(auto, using(crate::proofs::Sizes::abs_is))]
pub fn abs(x: f32) -> f32
    ensures { result ≡ abs_of x }
{
    x.abs()
}

// The largest whole number that is not above x: x itself where it has no fraction, as from a size of 2^23 on.
#[tactic(auto, using(crate::proofs::Sizes::floor_is))]
pub fn floor(x: f32) -> f32
    ensures { result ≡ floor_of x }
{
    x.floor()
}

// 1 where it holds, else 0.
#[tactic(auto, unfolding(lists::specs::Marked::pick))]
fn one_if(holds: bool) -> f32
    ensures { result ≡ pick holds 1f 0f }
{
    if holds { 1.0 } else { 0.0 }
}

// Whether a is below b, both finite and b with no sign, with no comparison: the sign of their difference tells. 0 is added so that -0 is not
// below 0.
pub fn is_below_finite(a: f32, b: f32) -> bool
    requires { T (finite a) × Unsigned b }
    ensures { result ≡ Ieee.lt a b }
{
    f32::to_bits(a + 0.0 - b) >= 0x8000_0000
}

// The floor of an x from 0 to 2^22, with no branch to take and no comparison: 2^23 is added and taken off, where no f32 has a fraction; 1 less
// where that is too much. A zero comes back with no sign.
pub fn floor_small(x: f32) -> f32
    requires { UpTo x 4194304 1 }
    ensures { result ≡ Ieee.of_int binary32 (pos (Ieee.to_unsigned 64 (floor_of x))) }
{
    let f = (x + 8388608.0) - 8388608.0;
    f - one_if(is_below_finite(x, f))
}

// The whole number nearest to x, half away from zero: x itself for a zero, and from a size of 2^23 on.
#[tactic(auto, using(crate::proofs::Sizes::round_is))]
pub fn round(x: f32) -> f32
    ensures { result ≡ round_of x }
{
    x.round()
}

// The value of a bit pattern; a NaN for every NaN's.
#[tactic(auto, using(floats::proofs::Patterns::nan_pattern, floats::proofs::Patterns::number_pattern))]
pub fn from_bits(b: u32) -> f32
    ensures { result ≡ Ieee.of_bits binary32 b }
{
    if b % 0x8000_0000 > 0x7f80_0000 {
        f32::NAN
    } else {
        f32::from_bits(b)
    }
}

// The bit pattern of x; for a NaN the one with the sign clear and only the highest digit set.
#[tactic(auto, using(crate::proofs::Sizes::nan_bits))]
pub fn to_bits(x: f32) -> u32
    ensures { result ≡ Ieee.to_bits binary32 x }
{
    if x.is_nan() {
        0x7fc0_0000
    } else {
        f32::to_bits(x)
    }
}
