// The second half of a pass of the rail: the inverse, lambda, and the update of the shift, from the sums over the marked pixels. Theta stays 0.
//
// It is lent five images one after another, and only reads them: 0 and 1 the warped gradients, 3 and 4 the centred template and image. Image 2 is
// not looked at.
#![tactic(auto)]

ghost use Rattle.std.specs.Prelude.{◌≡◌, ◌*◌, ◌≤◌, length, Some};
ghost use Rattle.lists.specs.Lists.{image};
ghost use Rattle.lists.specs.Marked.{words_for};
ghost use Rattle.lists.specs.Premises.{InRange};
ghost use Rattle.bits.specs.Words.{unpacked_of};
ghost use Rattle.rows.specs.Rows.{marked_rows_of};
ghost use Rattle.slide.specs.Slide.{slid_of, slide_of};

use inverse2::Vector2;
use refusals::Refusal;
use rows::Rows;
use solve::Step;

// The shift with delta added; 10 where it is not finite.
fn slid(at: pose::Pose, delta: Vector2, rho: f32) -> Result<Step, Refusal>
    ensures { result ≡ slid_of at delta rho }
{
    let tx = at.tx + delta.0;
    let ty = at.ty + delta.1;
    if !numbers::is_finite(tx) {
        return Err(Refusal::PoseLost);
    }
    if !numbers::is_finite(ty) {
        return Err(Refusal::PoseLost);
    }
    Ok(Step::Move(pose::Pose { theta: 0.0, tx, ty }, rho))
}

// The sums, the inverse, lambda and the update, with the refusals 8, 9 and 10. `rows` are the first and the last that hold a mark: no others are
// walked.
pub fn slide(
    part: &[f32],
    marks: &[u64],
    w: usize,
    h: usize,
    rows: Rows,
    at: pose::Pose,
    s: stats::Stats,
    rho: f32,
) -> Result<Step, Refusal>
    requires { InRange w h × (5 * (w * h) ≤ length part.now) × (words_for (w * h) ≤ length marks.now)
        × (marked_rows_of (unpacked_of marks.now (w * h)) w h ≡ Some rows) }
    ensures { let n = w * h in let xs = part.now in
        result ≡ slide_of (unpacked_of marks.now n) n at (image n 0 xs) (image n 1 xs) (image n 3 xs) (image n 4 xs) s rho }
{
    let n = w * h;
    let span = rows::pixels(rows, w);
    let sums = sums2::project(part, marks, n, span.from, span.to);
    let Some(h_inv) = inverse2::try_inverse2(sums.h) else {
        return Err(Refusal::NoInverse);
    };
    let ip = sums.image_proj;
    let iph = inverse2::times2(h_inv, ip);
    let Some(lambda) = solve::lambda_of(
        s,
        inverse2::dot2(ip, iph),
        inverse2::dot2(sums.template_proj, iph),
    ) else {
        return Err(Refusal::NoStep);
    };
    let error_proj = sums2::errors(part, marks, n, span.from, span.to, lambda);
    slid(at, inverse2::times2(h_inv, error_proj), rho)
}
