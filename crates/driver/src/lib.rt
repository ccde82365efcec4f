// The numbers for the pins: how far an answer moves the middle of the frame, in 1/256 pixel, and its turn in 1/8192 radian, as whole numbers.
//
// Any answer and any sides may be handed in. A refusal gives 0, 0, 0, and so does a pose with theta, tx or ty not finite, and a side of 0 or above 4,096.
#![tactic(auto)]

ghost use Rattle.std.specs.Prelude.{◌≡◌, ◌≤◌, not, T, is_nan};
ghost use Rattle.std.specs.Float.Ieee as Ieee;
ghost use Rattle.std.specs.Float.Ieee.Scale.{finite};
ghost use Rattle.lists.specs.Premises.{is_side};
ghost use Rattle.driver.specs.Pins.{pin_of, still_of, finite_of, posed_of, pins_of};

use pose::Answer;

// By default 0, 0, 0: nothing moves.
#[derive(Clone, Copy, Default)]
pub struct Pins {
    pub dx: i16,
    pub dy: i16,
    pub turn: i16,
}

// v with its fraction dropped, held to -32768..32767.
fn held(v: f32) -> i16
    ensures { result ≡ Ieee.to_signed 15 v }
{
    std::num::saturating_f32_to_i16(v)
}

// x to the nearest whole number, half away from zero, held to -32768..32767.
fn capped(x: f32) -> i16
    requires { T (not (is_nan x)) }
    ensures { result ≡ pin_of 1 x }
{
    let v = numbers::round(x);
    held(v)
}

// The numbers of a pose that is finite, with the point (a/2, b/2) in the middle of the frame. A product with 8192 is exact, or an infinity, which is held.
fn finite_pins(theta: f32, tx: f32, ty: f32, a: u64, b: u64) -> Pins
    requires t { T (finite theta) × T (finite tx) × T (finite ty) }
    requires a_bound { (a ≤ 4095) × (b ≤ 4095) }
    ensures { result ≡ finite_of theta tx ty a b }
{
    let m = pose::posed_matrix(theta, tx, ty);
    Pins {
        dx: middle::motion(m.m00, a, m.m01, b, m.m02),
        dy: middle::motion(m.m11, b, m.m10, a, m.m12),
        turn: capped(theta * 8192.0),
    }
}

// The numbers of a pose.
#[tactic(auto, unfolding(crate::specs::Pins::posed_of, lists::specs::Marked::pick))]
fn posed_pins(theta: f32, tx: f32, ty: f32, a: u64, b: u64) -> Pins
    requires { (a ≤ 4095) × (b ≤ 4095) }
    ensures { result ≡ posed_of theta tx ty a b }
{
    if numbers::is_finite(theta) && numbers::is_finite(tx) && numbers::is_finite(ty) {
        return finite_pins(theta, tx, ty, a, b);
    }
    Pins::default()
}

#[tactic(auto, unfolding(lists::specs::Premises::is_side))]
fn is_side(n: usize) -> bool
    ensures { result ≡ is_side n }
{
    (1..=4096).contains(&n)
}

// The numbers of any answer, to a frame of w by h pixels.
#[tactic(auto, unfolding(crate::specs::Pins::pins_of, lists::specs::Premises::is_side, lists::specs::Marked::pick))]
pub fn pins_of(answer: Answer, w: usize, h: usize) -> Pins
    ensures { result ≡ pins_of answer w h }
{
    if !(is_side(w) && is_side(h)) {
        return Pins::default();
    }
    match answer {
        Err(_) => Pins::default(),
        Ok(p) => posed_pins(p.theta, p.tx, p.ty, (w - 1) as u64, (h - 1) as u64),
    }
}
