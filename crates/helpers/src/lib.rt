// The number helpers for a caller in C or Rust: what tools/compare-helpers tries on every f32. Each is the inner
// function under another name, with the same definition; cos, sin and exp_neg ask for the range that document 01 gives.
#![tactic(auto)]

ghost use Rattle.std.specs.Prelude.{◌≡◌, ◌^◌, ◌≤◌, pos};
ghost use Rattle.std.specs.Float.Ieee as Ieee;
ghost use Rattle.std.specs.Float.{binary32};
ghost use Rattle.std.specs.Float.Ieee.Scale.{finite};
ghost use Rattle.floats.specs.Bound.{Within, UpTo};
ghost use Rattle.numbers.specs.Numbers.{abs_of, floor_of, round_of};
ghost use Rattle.root.specs.Root.{sqrt_of};
ghost use Rattle.series.specs.Series.{cos_of, sin_of, exp_neg_of};

#[unsafe(no_mangle)]
pub extern "C" fn helper_sqrt(x: f32) -> f32
    ensures { result ≡ sqrt_of x }
{
    root::sqrt(x)
}

#[unsafe(no_mangle)]
pub extern "C" fn helper_cos(theta: f32) -> f32
    requires { Within theta 2 1 }
    ensures { result ≡ cos_of theta }
{
    series::cos(theta)
}

#[unsafe(no_mangle)]
pub extern "C" fn helper_sin(theta: f32) -> f32
    requires { Within theta 2 1 }
    ensures { result ≡ sin_of theta }
{
    series::sin(theta)
}

#[unsafe(no_mangle)]
pub extern "C" fn helper_exp_neg(a: f32) -> f32
    requires { UpTo a 6 1 }
    ensures { result ≡ exp_neg_of a }
{
    series::exp_neg(a)
}

#[unsafe(no_mangle)]
pub extern "C" fn helper_floor(x: f32) -> f32
    ensures { result ≡ floor_of x }
{
    numbers::floor(x)
}

#[unsafe(no_mangle)]
pub extern "C" fn helper_round(x: f32) -> f32
    ensures { result ≡ round_of x }
{
    numbers::round(x)
}

#[unsafe(no_mangle)]
pub extern "C" fn helper_abs(x: f32) -> f32
    ensures { result ≡ abs_of x }
{
    numbers::abs(x)
}

#[unsafe(no_mangle)]
pub extern "C" fn helper_is_finite(x: f32) -> bool
    ensures { result ≡ finite x }
{
    numbers::is_finite(x)
}

#[unsafe(no_mangle)]
pub extern "C" fn helper_as_usize(x: f32) -> usize
    ensures { result ≡ Ieee.to_unsigned 64 x }
{
    numbers::as_usize(x)
}

#[unsafe(no_mangle)]
pub extern "C" fn helper_to_f32(n: usize) -> f32
    requires { n ≤ 2 ^ 24 }
    ensures { result ≡ Ieee.of_int binary32 (pos n) }
{
    numbers::to_f32(n)
}
