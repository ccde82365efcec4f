// One pass over the work slice: warp, statistics, the tests in document 01's order, and the update.
//
// The work slice holds twelve images; a pass reads images 2, 3, 4 (the prepared input and its gradients) and 8 (the prepared template) and
// leaves them as they are. Images 5 to 7 get the warped ones, 9 and 10 the centred ones, 11 j0. The warp tells which rows hold a mark, and what
// follows walks these rows and no others.
#![tactic(auto)]

ghost use Rattle.std.specs.Prelude.{◌≡◌, ◌*◌, ◌≤◌, Some};
ghost use Rattle.lists.specs.Lists.{put, image, set_image};
ghost use Rattle.lists.specs.Premises.{InRange, Lent};
ghost use Rattle.marks.specs.Marks.{count_on};
ghost use Rattle.bits.specs.Words.{words_of, unpacked_of};
ghost use Rattle.rows.specs.Rows.{marked_rows_of};
ghost use Rattle.rows.specs.Between.{Between};
ghost use Rattle.floats.specs.Bound.{Within};
ghost use Rattle.places.specs.Point.{marks_of};
ghost use Rattle.warp.specs.Warp.{warp_of};
ghost use Rattle.sums.specs.Sums.{steep_of};
ghost use Rattle.solve.specs.Solve.{solve_of};
ghost use Rattle.pass.specs.Pass.{pass_of, weighed_of};
ghost use Rattle.pass.specs.Kept.{Kept, KeptMarks, CentredWork};

use refusals::Refusal;
use rows::Rows;
use solve::Step;
use verdict::Verdict;
use warp::Found;

// The warp within the work: images 2 to 4 into 5 to 7.
fn warp_work(work: &mut [f32], marks: &mut [u64], map: pose::Map, w: usize, h: usize) -> Found
    requires { InRange w h × Lent (w * h) work.old marks.old }
    ensures work_after { let n = w * h in let xs = work.old in
        work.new ≡ set_image n 7 (warp_of (image n 4 xs) map w h)
        (set_image n 6 (warp_of (image n 3 xs) map w h) (set_image n 5 (warp_of (image n 2 xs) map w h) xs)) }
    ensures marks_after { marks.new ≡ put marks.old 0 (words_of (marks_of map w h) (w * h)) }
    ensures count_value { (result.count ≡ count_on (marks_of map w h) (w * h)) × (result.rows ≡ marked_rows_of (marks_of map w h) w h) }
{
    let n = w * h;
    warp::warp_three_inverse_map(&mut work[2 * n..], marks, map, w, h)
}

// The centred images within the work: of 8 and 5 into 9 and 10, at the marked pixels.
fn centre_work(
    work: &mut [f32],
    marks: &[u64],
    n: usize,
    from: usize,
    to: usize,
    found: usize,
) -> stats::Stats
    requires { (n ≤ 16777216) × (found ≡ count_on (unpacked_of marks.now n) n) × Lent n work.old marks.now × Between (unpacked_of marks.now n) n from to }
    ensures { CentredWork (unpacked_of marks.now n) n work.old work.new result }
{
    stats::centered_stats_in_place(&mut work[5 * n..], marks, n, from, to, found)
}

// The second half of a pass within the work: j0 into 11, in the rows that hold a mark.
fn solve_work(
    work: &mut [f32],
    marks: &[u64],
    w: usize,
    h: usize,
    rows: Rows,
    at: pose::Pose,
    s: stats::Stats,
    rho: f32,
) -> Result<Step, Refusal>
    requires { InRange w h × Lent (w * h) work.old marks.now × (marked_rows_of (unpacked_of marks.now (w * h)) w h ≡ Some rows)
        × Within at.theta 2 1 }
    ensures work_after { work.new ≡ set_image (w * h) 11 (image (w * h) 11 work.new) work.old }
    ensures result_value { let n = w * h in let xs = work.old in
        result ≡ solve_of (unpacked_of marks.now n) n at (steep_of w h at.theta (image n 6 xs) (image n 7 xs)) (image n 6 xs) (image n 7 xs)
        (image n 9 xs) (image n 10 xs) s rho }
{
    let n = w * h;
    solve::solve(&mut work[6 * n..], marks, w, h, rows, at, s, rho)
}

// A pass after its warp: centring, the tests 6 and 7, the stop, the second half.
fn weigh(
    work: &mut [f32],
    marks: &[u64],
    w: usize,
    h: usize,
    eps: f32,
    at: pose::Pose,
    last: f32,
    rows: Rows,
    found: usize,
) -> Result<Step, Refusal>
    requires { InRange w h × Lent (w * h) work.old marks.now × (marked_rows_of (unpacked_of marks.now (w * h)) w h ≡ Some rows)
        × (found ≡ count_on (unpacked_of marks.now (w * h)) (w * h)) × Within at.theta 2 1 }
    ensures result_value { let n = w * h in let xs = work.old in
        result ≡ weighed_of (unpacked_of marks.now n) (image n 8 xs) (image n 5 xs) (image n 6 xs) (image n 7 xs) w h eps at last }
    ensures kept { Kept (w * h) work.old work.new }
{
    let n = w * h;
    let span = rows::pixels(rows, w);
    let s = centre_work(work, marks, n, span.from, span.to, found);
    match verdict::judge(s, last, eps)? {
        Verdict::Settled(rho) => Ok(Step::Stop(rho)),
        Verdict::Unsettled(rho) => solve_work(work, marks, w, h, rows, at, s, rho),
    }
}

pub fn pass(
    work: &mut [f32],
    marks: &mut [u64],
    w: usize,
    h: usize,
    eps: f32,
    at: pose::Pose,
    last: f32,
) -> Result<Step, Refusal>
    requires { InRange w h × Lent (w * h) work.old marks.old × Within at.theta 2 1 }
    ensures value { result ≡ pass_of (image (w * h) 8 work.old) (image (w * h) 2 work.old) (image (w * h) 3 work.old)
        (image (w * h) 4 work.old) w h eps at last }
    ensures kept { Kept (w * h) work.old work.new × KeptMarks (w * h) marks.old marks.new }
{
    let map = pose::affine_from_theta_tx_ty(at);
    let found = warp_work(work, marks, map, w, h);
    let marked = found.rows;
    let Some(rows) = marked else {
        return Err(Refusal::FewPixels);
    };
    if found.count < 16 {
        return Err(Refusal::FewPixels);
    }
    weigh(work, marks, w, h, eps, at, last, rows, found.count)
}
