// The inverse of a 3x3 matrix of f32, by document 01's rule: none where the determinant is a zero of either sign. A determinant that is
// infinite or a NaN counts as there, and so do the entries that come of it.
#![tactic(auto)]

ghost use Rattle.std.specs.Prelude.{◌≡◌};
ghost use Rattle.inverse.specs.Inverse.{rows_over_of, inverse_of, times_of, dot_of};

#[derive(Clone, Copy)]
pub struct Vector3(pub f32, pub f32, pub f32);

#[derive(Clone, Copy)]
pub struct Matrix3 {
    pub m00: f32,
    pub m01: f32,
    pub m02: f32,
    pub m10: f32,
    pub m11: f32,
    pub m12: f32,
    pub m20: f32,
    pub m21: f32,
    pub m22: f32,
}

// The rows of the inverse, each entry over the determinant d.
fn over(h: Matrix3, p: f32, q: f32, r: f32, d: f32) -> Matrix3
    ensures { result ≡ rows_over_of h p q r d }
{
    Matrix3 {
        m00: p / d,
        m01: (h.m02 * h.m21 - h.m22 * h.m01) / d,
        m02: (h.m01 * h.m12 - h.m11 * h.m02) / d,
        m10: -q / d,
        m11: (h.m00 * h.m22 - h.m20 * h.m02) / d,
        m12: (h.m02 * h.m10 - h.m12 * h.m00) / d,
        m20: r / d,
        m21: (h.m01 * h.m20 - h.m21 * h.m00) / d,
        m22: (h.m00 * h.m11 - h.m10 * h.m01) / d,
    }
}

// The inverse.
pub fn try_inverse(h: Matrix3) -> Option<Matrix3>
    ensures { result ≡ inverse_of h }
{
    let p = h.m11 * h.m22 - h.m21 * h.m12;
    let q = h.m10 * h.m22 - h.m20 * h.m12;
    let r = h.m10 * h.m21 - h.m20 * h.m11;
    let d = (h.m00 * p - h.m01 * q) + h.m02 * r;
    if d == 0.0 {
        return None;
    }
    Some(over(h, p, q, r, d))
}

// A dot product, added left to right.
pub fn dot(a: Vector3, b: Vector3) -> f32
    ensures { result ≡ dot_of a b }
{
    a.0 * b.0 + a.1 * b.1 + a.2 * b.2
}

// A matrix times a vector, each row added left to right.
pub fn times(m: Matrix3, v: Vector3) -> Vector3
    ensures { result ≡ times_of m v }
{
    Vector3(
        dot(Vector3(m.m00, m.m01, m.m02), v),
        dot(Vector3(m.m10, m.m11, m.m12), v),
        dot(Vector3(m.m20, m.m21, m.m22), v),
    )
}
