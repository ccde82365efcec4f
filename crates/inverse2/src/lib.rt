// The inverse of a 2x2 matrix of f32, by document 02's rule for the rail: none where the determinant is a zero of either sign. A determinant that is
// infinite or a NaN counts as there, and so do the entries that come of it.
#![tactic(auto)]

ghost use Rattle.std.specs.Prelude.{◌≡◌};
ghost use Rattle.inverse2.specs.Inverse.{inverse2_of, times2_of, dot2_of};

#[derive(Clone, Copy)]
pub struct Vector2(pub f32, pub f32);

#[derive(Clone, Copy)]
pub struct Matrix2 {
    pub m00: f32,
    pub m01: f32,
    pub m10: f32,
    pub m11: f32,
}

// The inverse.
pub fn try_inverse2(h: Matrix2) -> Option<Matrix2>
    ensures { result ≡ inverse2_of h }
{
    let d = h.m00 * h.m11 - h.m10 * h.m01;
    if d == 0.0 {
        return None;
    }
    Some(Matrix2 {
        m00: h.m11 / d,
        m01: -h.m01 / d,
        m10: -h.m10 / d,
        m11: h.m00 / d,
    })
}

// A dot product, added left to right.
pub fn dot2(a: Vector2, b: Vector2) -> f32
    ensures { result ≡ dot2_of a b }
{
    a.0 * b.0 + a.1 * b.1
}

// A matrix times a vector, each row added left to right.
pub fn times2(m: Matrix2, v: Vector2) -> Vector2
    ensures { result ≡ times2_of m v }
{
    Vector2(
        dot2(Vector2(m.m00, m.m01), v),
        dot2(Vector2(m.m10, m.m11), v),
    )
}
