// Poses and answers: what the passes carry, the pose in original pixels, what a call hands back, and the matrix of each.
#![tactic(auto)]

ghost use Rattle.std.specs.Prelude.{◌≡◌};
ghost use Rattle.floats.specs.Bound.{Within};
ghost use Rattle.pose.specs.Pose.{affine_from_theta_tx_ty, unscaled_of, identity3, is_pose, affine_matrix, posed_matrix, matrix_of, number_of};

use inverse::Matrix3;
use refusals::Refusal;

// The running pose.
#[derive(Clone, Copy)]
pub struct Pose {
    pub theta: f32,
    pub tx: f32,
    pub ty: f32,
}

// The first two rows of a pose's matrix, by which the warp goes.
#[derive(Clone, Copy)]
pub struct Map {
    pub m00: f32,
    pub m01: f32,
    pub m02: f32,
    pub m10: f32,
    pub m11: f32,
    pub m12: f32,
}

// A pose in original pixels, with its correlation.
#[derive(Clone, Copy)]
pub struct Posed {
    pub theta: f32,
    pub tx: f32,
    pub ty: f32,
    pub rho: f32,
}

// How a call ends: a pose, or a refusal.
pub type Answer = Result<Posed, Refusal>;

// An answer with the number of warps done.
#[derive(Clone, Copy)]
pub struct Outcome {
    pub passes: usize,
    pub answer: Answer,
}

// The first two rows of a pose's matrix.
pub fn affine_from_theta_tx_ty(pose: Pose) -> Map
    requires { Within pose.theta 2 1 }
    ensures { result ≡ affine_from_theta_tx_ty pose }
{
    let ct = series::cos(pose.theta);
    let st = series::sin(pose.theta);
    Map {
        m00: ct,
        m01: -st,
        m02: pose.tx,
        m10: st,
        m11: ct,
        m12: pose.ty,
    }
}

// The pose in original pixels, by the factors tw / w and th / h; 10 where its shift is not finite then.
pub fn unscaled(sx: f32, sy: f32, at: Pose, rho: f32) -> Answer
    ensures { result ≡ unscaled_of sx sy at rho }
{
    let tx = at.tx / sx;
    let ty = at.ty / sy;
    if !numbers::is_finite(tx) {
        return Err(Refusal::PoseLost);
    }
    if !numbers::is_finite(ty) {
        return Err(Refusal::PoseLost);
    }
    Ok(Posed {
        theta: at.theta,
        tx,
        ty,
        rho,
    })
}

fn identity3() -> Matrix3
    ensures { result ≡ identity3 }
{
    Matrix3 {
        m00: 1.0,
        m01: 0.0,
        m02: 0.0,
        m10: 0.0,
        m11: 1.0,
        m12: 0.0,
        m20: 0.0,
        m21: 0.0,
        m22: 1.0,
    }
}

// [ct, -st, tx], [st, ct, ty], [0, 0, 1]
fn turned(theta: f32, tx: f32, ty: f32) -> Matrix3
    requires { Within theta 2 1 }
    ensures { result ≡ affine_matrix theta tx ty }
{
    let map = affine_from_theta_tx_ty(Pose { theta, tx, ty });
    Matrix3 {
        m00: map.m00,
        m01: map.m01,
        m02: map.m02,
        m10: map.m10,
        m11: map.m11,
        m12: map.m12,
        m20: 0.0,
        m21: 0.0,
        m22: 1.0,
    }
}

// Whether these are numbers of a pose: theta in -2..2, tx and ty finite.
pub fn is_pose(theta: f32, tx: f32, ty: f32) -> bool
    ensures { result ≡ is_pose theta tx ty }
{
    if theta >= -2.0 {
        if theta <= 2.0 {
            if numbers::is_finite(tx) {
                return numbers::is_finite(ty);
            }
            return false;
        }
        return false;
    }
    false
}

// The matrix of a pose: the identity for a number that is not finite and for a theta outside -2..2.
pub fn posed_matrix(theta: f32, tx: f32, ty: f32) -> Matrix3
    ensures { result ≡ posed_matrix theta tx ty }
{
    if is_pose(theta, tx, ty) {
        turned(theta, tx, ty)
    } else {
        identity3()
    }
}

// The matrix of any answer: the identity for a refusal, for a number that is not finite and for a theta outside -2..2.
pub fn matrix_of(a: Answer) -> Matrix3
    ensures { result ≡ matrix_of a }
{
    match a {
        Err(_) => identity3(),
        Ok(p) => posed_matrix(p.theta, p.tx, p.ty),
    }
}

// Document 01's number of an answer, for what is printed and for C: 0 for a pose.
pub fn number_of(answer: Answer) -> u8
    ensures { result ≡ number_of answer }
{
    match answer {
        Err(refusal) => refusal.number(),
        Ok(_) => 0,
    }
}
