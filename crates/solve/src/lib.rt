// The second half of a pass: the inverse, lambda, and the update of the pose, from the sums over the marked pixels.
//
// It is lent six images one after another: 0 and 1 the warped gradients, 3 and 4 the centred template and image; it leaves j0 in
// image 5, in the rows that hold a mark. Image 2 is not looked at.
#![tactic(auto)]

ghost use Rattle.std.specs.Prelude.{◌≡◌, ◌*◌, ◌≤◌, length, Some};
ghost use Rattle.lists.specs.Lists.{image, set_image};
ghost use Rattle.lists.specs.Marked.{words_for};
ghost use Rattle.lists.specs.Premises.{InRange};
ghost use Rattle.floats.specs.Bound.{Within};
ghost use Rattle.bits.specs.Words.{unpacked_of};
ghost use Rattle.rows.specs.Rows.{marked_rows_of};
ghost use Rattle.sums.specs.Sums.{steep_of};
ghost use Rattle.solve.specs.Lambda.{lambda_of};
ghost use Rattle.solve.specs.Solve.{moved_of, solve_of};

use inverse::Vector3;
use refusals::Refusal;
use rows::Rows;

// How a pass ends that is not refused: with the passes' stop at a correlation, or with the next pose and the correlation.
#[derive(Clone, Copy)]
pub enum Step {
    Stop(f32),
    Move(pose::Pose, f32),
}

// lambda, or none where lambda_d <= 0 or is not finite, or lambda is not finite. By the products of image_proj and of template_proj with
// image_proj_hessian, so that it serves every model of the passes.
pub fn lambda_of(s: stats::Stats, image: f32, template: f32) -> Option<f32>
    ensures { result ≡ lambda_of s image template }
{
    let lambda_n = s.img_norm * s.img_norm - image;
    let lambda_d = s.corr - template;
    if lambda_d <= 0.0 {
        return None;
    }
    if !numbers::is_finite(lambda_d) {
        return None;
    }
    let lambda = lambda_n / lambda_d;
    if !numbers::is_finite(lambda) {
        return None;
    }
    Some(lambda)
}

// The pose with delta added; 10 where it leaves what a pose may be.
fn moved(at: pose::Pose, delta: Vector3, rho: f32) -> Result<Step, Refusal>
    ensures { result ≡ moved_of at delta rho }
{
    let theta = at.theta + delta.0;
    let tx = at.tx + delta.1;
    let ty = at.ty + delta.2;
    if pose::is_pose(theta, tx, ty) {
        return Ok(Step::Move(pose::Pose { theta, tx, ty }, rho));
    }
    Err(Refusal::PoseLost)
}

// Steepest descent, the sums, the inverse, lambda and the update, with the refusals 8, 9 and 10. `rows` are the first and the last that hold a
// mark: no others are walked.
pub fn solve(
    part: &mut [f32],
    marks: &[u64],
    w: usize,
    h: usize,
    rows: Rows,
    at: pose::Pose,
    s: stats::Stats,
    rho: f32,
) -> Result<Step, Refusal>
    requires { InRange w h × (6 * (w * h) ≤ length part.old) × (words_for (w * h) ≤ length marks.now)
        × (marked_rows_of (unpacked_of marks.now (w * h)) w h ≡ Some rows) × Within at.theta 2 1 }
    ensures part_after { part.new ≡ set_image (w * h) 5 (image (w * h) 5 part.new) part.old }
    ensures value { result ≡ solve_of (unpacked_of marks.now (w * h)) (w * h) at
        (steep_of w h at.theta (image (w * h) 0 part.old) (image (w * h) 1 part.old))
        (image (w * h) 0 part.old) (image (w * h) 1 part.old) (image (w * h) 3 part.old) (image (w * h) 4 part.old) s rho }
{
    let n = w * h;
    let span = rows::pixels(rows, w);
    sums::steep(part, w, h, rows.first, rows.last, at.theta);
    let sums = sums::project(part, marks, n, span.from, span.to);
    let Some(h_inv) = inverse::try_inverse(sums.h) else {
        return Err(Refusal::NoInverse);
    };
    let ip = sums.image_proj;
    let iph = inverse::times(h_inv, ip);
    let Some(lambda) = lambda_of(
        s,
        inverse::dot(ip, iph),
        inverse::dot(sums.template_proj, iph),
    ) else {
        return Err(Refusal::NoStep);
    };
    let error_proj = sums::errors(part, marks, n, span.from, span.to, lambda);
    moved(at, inverse::times(h_inv, error_proj), rho)
}
