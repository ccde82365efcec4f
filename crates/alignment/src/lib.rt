// find_transform_ecc_euclidean: any two frames, sides, settings, work and marks may be handed in, unchecked. Each call ends with a pose whose
// every number is finite, or with a refusal number of document 01's table.
//
// Where a check fails (numbers 1 to 4) work and marks stay as they were; else the first 12n floats are +0 afterwards and the words that n
// marks need are 0, n the number of pixels after resizing, and the rest stays.
#![tactic(auto)]

ghost use Rattle.std.specs.Prelude.{◌≡◌, ◌*◌, ◌≤◌, length};
ghost use Rattle.lists.specs.Lists.{tab, put};
ghost use Rattle.lists.specs.Marked.{words_for};
ghost use Rattle.lists.specs.Premises.{InRange, OddFilter, Lent};
ghost use Rattle.floats.specs.F32.{0f};
ghost use Rattle.checks.specs.Checks.{size_of, check_of};
ghost use Rattle.alignment.specs.Aligned.{run_of, aligned_of, Leaves};

use pose::Outcome;
use settings::EccConfig;

// The call past its checks, the frames of w by h prepared at tw by th.
fn align(
    template: &[u8],
    input: &[u8],
    w: usize,
    h: usize,
    tw: usize,
    th: usize,
    cfg: EccConfig,
    work: &mut [f32],
    marks: &mut [u64],
) -> Outcome
    requires { InRange w h × InRange tw th × (length template.now ≡ w * h) × (length input.now ≡ w * h)
        × Lent (tw * th) work.old marks.old × OddFilter cfg.gauss_filt_size × (cfg.max_iter ≤ 1000) }
    ensures value { result ≡ run_of template.now input.now w h tw th cfg }
    ensures work_after { (work.new ≡ put work.old 0 (tab (12 * (tw * th)) (λ _. 0f)))
        × (marks.new ≡ put marks.old 0 (tab (words_for (tw * th)) (λ _. 0))) }
{
    let n = tw * th;
    let sx = numbers::to_f32(tw) / numbers::to_f32(w);
    let sy = numbers::to_f32(th) / numbers::to_f32(h);
    frames::make_ready(work, template, input, w, h, tw, th, cfg.gauss_filt_size);
    let out = runs::run(work, marks, tw, th, cfg.eps, cfg.max_iter, sx, sy);
    zeros::fill_floats(work, 0, 12 * n);
    zeros::fill_words(marks, (n + 63) / 64);
    out
}

pub fn find_transform_ecc_euclidean(
    template: &[u8],
    input: &[u8],
    w: usize,
    h: usize,
    cfg: EccConfig,
    work: &mut [f32],
    marks: &mut [u64],
) -> Outcome
    ensures value { result ≡ aligned_of template.now input.now w h cfg (length work.old) (length marks.old) }
    ensures leaves { let number = check_of (length template.now) (length input.now) w h cfg (length work.old) (length marks.old) in
        Leaves number (size_of cfg w h) work.old work.new marks.old marks.new }
{
    let check = checks::check(
        template.len(),
        input.len(),
        w,
        h,
        cfg,
        work.len(),
        marks.len(),
    );
    if let Err(refusal) = check {
        return Outcome {
            passes: 0,
            answer: Err(refusal),
        };
    }
    let s = settings::resized(cfg.edge(), w, h);
    align(template, input, w, h, s.w, s.h, cfg, work, marks)
}
