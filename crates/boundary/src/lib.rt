// What crosses the boundary to C and Rust: settings and lengths from numbers, an answer as a number, its pose, matrix and pins at the front of
// lent slices. Inner parts of the library, whose functions are in crate quayhollow.
//
// A slice that is too short for what is to stand at its front stays as it was.
#![tactic(auto)]

ghost use Rattle.std.specs.Prelude.{◌≡◌, [], ◌∷◌, ◌≤◌};
ghost use Rattle.inverse.specs.Inverse.{entries_of};
ghost use Rattle.boundary.specs.Boundary.{config_of, pixel_count_of, fronted, code_of, pose_of, handed_of, three_of};

use driver::Pins;
use inverse::Matrix3;
use pose::{Answer, Outcome, Posed};
use refusals::Refusal;
use settings::EccConfig;

pub fn config(eps: f32, max_iter: usize, filter: usize, edge: usize) -> EccConfig
    ensures { result ≡ config_of eps max_iter filter edge }
{
    let choice = if edge == 0 { None } else { Some(edge) };
    EccConfig {
        eps,
        max_iter,
        gauss_filt_size: filter,
        resize_long_edge: choice,
    }
}

// How many pixels a frame has after resizing.
pub fn pixels(w: usize, h: usize, edge: usize) -> usize
    ensures { (result ≡ pixel_count_of w h edge) × (result ≤ 16777216) }
{
    if w > EccConfig::MOST_SIDE {
        return 0;
    }
    if h > EccConfig::MOST_SIDE {
        return 0;
    }
    if w == 0 {
        return 0;
    }
    if h == 0 {
        return 0;
    }
    let s = settings::resized(edge, w, h);
    s.w * s.h
}

// The number and the pass count in one.
pub fn code(o: Outcome) -> u32
    requires { o.passes ≤ 1000 }
    ensures { result ≡ code_of o }
{
    let a = o.answer;
    let number = pose::number_of(a) as u32;
    let passes = o.passes as u32;
    number + 256 * passes
}

fn put_four(a: f32, b: f32, c: f32, d: f32, out: &mut [f32])
    ensures { out.new ≡ fronted (a ∷ b ∷ c ∷ d ∷ []) out.old }
{
    if out.len() < 4 {
        return;
    }
    out[0] = a;
    out[1] = b;
    out[2] = c;
    out[3] = d;
}

// The pose's four numbers; zeros for a refusal.
pub fn put_pose(a: Answer, out: &mut [f32])
    ensures { out.new ≡ fronted (pose_of a) out.old }
{
    match a {
        Err(_) => put_four(0.0, 0.0, 0.0, 0.0, out),
        Ok(p) => put_four(p.theta, p.tx, p.ty, p.rho, out),
    }
}

pub fn put_matrix(m: Matrix3, out: &mut [f32])
    ensures { out.new ≡ fronted (entries_of m) out.old }
{
    if out.len() < 9 {
        return;
    }
    out[0] = m.m00;
    out[1] = m.m01;
    out[2] = m.m02;
    out[3] = m.m10;
    out[4] = m.m11;
    out[5] = m.m12;
    out[6] = m.m20;
    out[7] = m.m21;
    out[8] = m.m22;
}

pub fn put_pins(p: Pins, out: &mut [i16])
    ensures { out.new ≡ fronted (three_of p) out.old }
{
    if out.len() < 3 {
        return;
    }
    let dx = p.dx;
    let dy = p.dy;
    let turn = p.turn;
    out[0] = dx;
    out[1] = dy;
    out[2] = turn;
}

// An answer handed in by its number and its pose. Any number may come, also one that the table lacks.
pub fn handed(number: u8, theta: f32, tx: f32, ty: f32) -> Answer
    ensures { result ≡ handed_of number theta tx ty }
{
    if number == 0 {
        return Ok(Posed {
            theta,
            tx,
            ty,
            rho: 0.0,
        });
    }
    Err(Refusal::Handed(number))
}
