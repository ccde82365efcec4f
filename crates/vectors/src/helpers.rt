// What the number helpers ask of their argument: a vector outside does not agree.
ghost use Rattle.std.specs.Prelude.{◌≡◌, ◌&&◌, ◌^◌, leb};
ghost use Rattle.std.specs.Float.{binary32};
ghost use Rattle.std.specs.Float.Ieee.{of_bits, neg, le};
ghost use Rattle.floats.specs.F32.{0f, 2f};

// cos and sin ask for -2 <= x <= 2.
pub fn turns(x: f32) -> bool
    ensures { result ≡ (le x 2f && le (neg 2f) x) }
{
    x <= 2.0 && x >= -2.0
}

// exp_neg asks for 0 <= x <= 6.
pub fn fades(x: f32) -> bool
    ensures { result ≡ (le x (of_bits binary32 0x40c0_0000) && le 0f x) }
{
    x <= 6.0 && x >= 0.0
}

// to_f32 asks for a number up to 2^24.
pub fn widens(n: u64) -> bool
    ensures { result ≡ leb n (2 ^ 24) }
{
    n <= 0x100_0000
}
