// The library for C and Rust. Each function takes anything: numbers, and slices as a pointer and a length. Nothing is allocated and nothing
// is kept between calls; what is lent stays the caller's.
//
// A call answers with one number: document 01's number (0 for a pose) plus 256 times the pass count. The pose's four numbers go to a lent
// slice. A slice that is too short for what is to stand at its front stays as it was.
#![tactic(auto)]

ghost use Rattle.std.specs.Prelude.{◌≡◌, ◌*◌, length};
ghost use Rattle.lists.specs.Marked.{words_for};
ghost use Rattle.checks.specs.Checks.{size_of, check_of};
ghost use Rattle.pose.specs.Pose.{matrix_of};
ghost use Rattle.alignment.specs.Aligned.{aligned_of, Leaves};
ghost use Rattle.aligner.specs.Aligner.{estimate_of, store_after, refused_of};
ghost use Rattle.driver.specs.Pins.{pins_of};
ghost use Rattle.inverse.specs.Inverse.{entries_of};
ghost use Rattle.boundary.specs.Boundary.{config_of, pixel_count_of, fronted, code_of, pose_of, handed_of, three_of};
ghost use Rattle.quayhollow.specs.State.{store_length_of, remembered_of, state_after};

use aligner::EccAligner;
use settings::{EccConfig, Sides};

// What is remembered after a frame of w by h, by the lengths of the frame and of the store.
fn put_state(frame: usize, w: usize, h: usize, store: usize, state: &mut [u64])
    ensures { state.new ≡ state_after frame w h store state.old }
{
    if aligner::entry(frame, w, h, store).is_err() {
        return;
    }
    if state.len() < 3 {
        return;
    }
    state[0] = 1;
    state[1] = w as u64;
    state[2] = h as u64;
}

// The aligner's record, by what the caller keeps of it.
fn remembered(cfg: EccConfig, state: &[u64]) -> EccAligner
    ensures { result ≡ remembered_of cfg state.now }
{
    if state.len() < 3 {
        return EccAligner::new(cfg);
    }
    if state[0] == 0 {
        return EccAligner::new(cfg);
    }
    let w = state[1] as usize;
    let h = state[2] as usize;
    EccAligner {
        cfg,
        prev: Some(Sides { w, h }),
    }
}

pub fn quayhollow_version() -> u32
    ensures { result ≡ 3 }
{
    3
}

pub fn quayhollow_work_len(w: usize, h: usize, edge: usize) -> usize
    ensures { result ≡ 12 * pixel_count_of w h edge }
{
    12 * boundary::pixels(w, h, edge)
}

// How many words, each for the marks of sixty-four pixels.
pub fn quayhollow_marks_len(w: usize, h: usize, edge: usize) -> usize
    ensures { result ≡ words_for (pixel_count_of w h edge) }
{
    (boundary::pixels(w, h, edge) + 63) / 64
}

pub fn quayhollow_store_len(w: usize, h: usize) -> usize
    ensures { result ≡ store_length_of w h }
{
    if w > EccConfig::MOST_SIDE {
        return 0;
    }
    if h > EccConfig::MOST_SIDE {
        return 0;
    }
    w * h
}

// The alignment of an input frame with a template.
pub fn quayhollow_align(
    template: &[u8],
    input: &[u8],
    w: usize,
    h: usize,
    eps: f32,
    max_iter: usize,
    filter: usize,
    edge: usize,
    work: &mut [f32],
    marks: &mut [u64],
    pose: &mut [f32],
) -> u32
    ensures value { let cfg = config_of eps max_iter filter edge in
        let o = aligned_of template.now input.now w h cfg (length work.old) (length marks.old) in
        (result ≡ code_of o) × (pose.new ≡ fronted (pose_of o.answer) pose.old) }
    ensures leaves { let cfg = config_of eps max_iter filter edge in
        let number = check_of (length template.now) (length input.now) w h cfg (length work.old) (length marks.old) in
        Leaves number (size_of cfg w h) work.old work.new marks.old marks.new }
{
    let cfg = boundary::config(eps, max_iter, filter, edge);
    let o = alignment::find_transform_ecc_euclidean(template, input, w, h, cfg, work, marks);
    let a = o.answer;
    boundary::put_pose(a, pose);
    boundary::code(o)
}

// The matrix of an answer that is handed in, row after row. The answer comes by its number, as C has it.
pub fn quayhollow_matrix(number: u8, theta: f32, tx: f32, ty: f32, out: &mut [f32])
    ensures { out.new ≡ fronted (entries_of (matrix_of (handed_of number theta tx ty))) out.old }
{
    boundary::put_matrix(
        pose::matrix_of(boundary::handed(number, theta, tx, ty)),
        out,
    );
}

// The numbers for the pins of an answer that is handed in by its number, as C has it, to a frame of w by h pixels.
pub fn quayhollow_pins(
    number: u8,
    theta: f32,
    tx: f32,
    ty: f32,
    w: usize,
    h: usize,
    out: &mut [i16],
)
    ensures { out.new ≡ fronted (three_of (pins_of (handed_of number theta tx ty) w h)) out.old }
{
    boundary::put_pins(
        driver::pins_of(boundary::handed(number, theta, tx, ty), w, h),
        out,
    );
}

// The alignment of a frame with the one before it. The caller keeps what is remembered: three numbers in `state`, the frame in `store`.
pub fn quayhollow_estimate(
    frame: &[u8],
    w: usize,
    h: usize,
    eps: f32,
    max_iter: usize,
    filter: usize,
    edge: usize,
    state: &mut [u64],
    store: &mut [u8],
    work: &mut [f32],
    marks: &mut [u64],
    pose: &mut [f32],
) -> u32
    ensures value { let before = remembered_of (config_of eps max_iter filter edge) state.old in
        let o = (estimate_of before frame.now w h store.old (length work.old) (length marks.old)).outcome in
        (result ≡ code_of o) × (pose.new ≡ fronted (pose_of o.answer) pose.old) }
    ensures state_after { (state.new ≡ state_after (length frame.now) w h (length store.old) state.old)
        × (store.new ≡ store_after frame.now w h store.old) }
    ensures leaves { let cfg = config_of eps max_iter filter edge in
        let number = refused_of (remembered_of cfg state.old) (length frame.now) w h (length store.old) (length work.old) (length marks.old) in
        Leaves number (size_of cfg w h) work.old work.new marks.old marks.new }
{
    let cfg = boundary::config(eps, max_iter, filter, edge);
    let before = remembered(cfg, state);
    put_state(frame.len(), w, h, store.len(), state);
    let reply = aligner::estimate(before, frame, w, h, store, work, marks);
    let o = reply.outcome;
    let a = o.answer;
    boundary::put_pose(a, pose);
    boundary::code(o)
}
