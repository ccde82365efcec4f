// The library for C and Rust: what crate quayhollow does, under the names that C links. Each function calls the one of its name there and has its
// clauses. Slices come as a pointer and a length.
#![tactic(auto)]

ghost use Rattle.std.specs.Prelude.{◌≡◌, ◌*◌, length};
ghost use Rattle.lists.specs.Marked.{words_for};
ghost use Rattle.checks.specs.Checks.{size_of, check_of};
ghost use Rattle.pose.specs.Pose.{matrix_of};
ghost use Rattle.alignment.specs.Aligned.{aligned_of, Leaves};
ghost use Rattle.aligner.specs.Aligner.{estimate_of, store_after, refused_of};
ghost use Rattle.driver.specs.Pins.{pins_of};
ghost use Rattle.inverse.specs.Inverse.{entries_of};
ghost use Rattle.boundary.specs.Boundary.{config_of, pixel_count_of, fronted, code_of, pose_of, handed_of, three_of};
ghost use Rattle.quayhollow.specs.State.{store_length_of, remembered_of, state_after};

#[unsafe(no_mangle)]
pub extern "C" fn quayhollow_version() -> u32
    ensures { result ≡ 3 }
{
    quayhollow::quayhollow_version()
}

#[unsafe(no_mangle)]
pub extern "C" fn quayhollow_work_len(w: usize, h: usize, edge: usize) -> usize
    ensures { result ≡ 12 * pixel_count_of w h edge }
{
    quayhollow::quayhollow_work_len(w, h, edge)
}

// How many words, each for the marks of sixty-four pixels.
#[unsafe(no_mangle)]
pub extern "C" fn quayhollow_marks_len(w: usize, h: usize, edge: usize) -> usize
    ensures { result ≡ words_for (pixel_count_of w h edge) }
{
    quayhollow::quayhollow_marks_len(w, h, edge)
}

#[unsafe(no_mangle)]
pub extern "C" fn quayhollow_store_len(w: usize, h: usize) -> usize
    ensures { result ≡ store_length_of w h }
{
    quayhollow::quayhollow_store_len(w, h)
}

// The alignment of an input frame with a template.
#[unsafe(no_mangle)]
pub extern "C" fn quayhollow_align(
    template: &[u8],
    input: &[u8],
    w: usize,
    h: usize,
    eps: f32,
    max_iter: usize,
    filter: usize,
    edge: usize,
    work: &mut [f32],
    marks: &mut [u64],
    pose: &mut [f32],
) -> u32
    ensures value { let cfg = config_of eps max_iter filter edge in
        let o = aligned_of template.now input.now w h cfg (length work.old) (length marks.old) in
        (result ≡ code_of o) × (pose.new ≡ fronted (pose_of o.answer) pose.old) }
    ensures leaves { let cfg = config_of eps max_iter filter edge in
        let number = check_of (length template.now) (length input.now) w h cfg (length work.old) (length marks.old) in
        Leaves number (size_of cfg w h) work.old work.new marks.old marks.new }
{
    quayhollow::quayhollow_align(
        template, input, w, h, eps, max_iter, filter, edge, work, marks, pose,
    )
}

// The matrix of an answer that is handed in, row after row.
#[unsafe(no_mangle)]
pub extern "C" fn quayhollow_matrix(number: u8, theta: f32, tx: f32, ty: f32, out: &mut [f32])
    ensures { out.new ≡ fronted (entries_of (matrix_of (handed_of number theta tx ty))) out.old }
{
    quayhollow::quayhollow_matrix(number, theta, tx, ty, out);
}

// The numbers for the pins of an answer that is handed in, to a frame of w by h pixels.
#[unsafe(no_mangle)]
pub extern "C" fn quayhollow_pins(
    number: u8,
    theta: f32,
    tx: f32,
    ty: f32,
    w: usize,
    h: usize,
    out: &mut [i16],
)
    ensures { out.new ≡ fronted (three_of (pins_of (handed_of number theta tx ty) w h)) out.old }
{
    quayhollow::quayhollow_pins(number, theta, tx, ty, w, h, out);
}

// The alignment of a frame with the one before it. The caller keeps what is remembered: three numbers in `state`, the frame in `store`.
#[unsafe(no_mangle)]
pub extern "C" fn quayhollow_estimate(
    frame: &[u8],
    w: usize,
    h: usize,
    eps: f32,
    max_iter: usize,
    filter: usize,
    edge: usize,
    state: &mut [u64],
    store: &mut [u8],
    work: &mut [f32],
    marks: &mut [u64],
    pose: &mut [f32],
) -> u32
    ensures value { let before = remembered_of (config_of eps max_iter filter edge) state.old in
        let o = (estimate_of before frame.now w h store.old (length work.old) (length marks.old)).outcome in
        (result ≡ code_of o) × (pose.new ≡ fronted (pose_of o.answer) pose.old) }
    ensures state_after { (state.new ≡ state_after (length frame.now) w h (length store.old) state.old)
        × (store.new ≡ store_after frame.now w h store.old) }
    ensures leaves { let cfg = config_of eps max_iter filter edge in
        let number = refused_of (remembered_of cfg state.old) (length frame.now) w h (length store.old) (length work.old) (length marks.old) in
        Leaves number (size_of cfg w h) work.old work.new marks.old marks.new }
{
    quayhollow::quayhollow_estimate(
        frame, w, h, eps, max_iter, filter, edge, state, store, work, marks, pose,
    )
}
