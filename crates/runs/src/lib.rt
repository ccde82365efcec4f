// The passes of a call: pass after pass, until one of them ends it or max_iter of them are done.
//
// The work holds both frames made ready; it and the marks come back with what the passes left there, and what lies past the twelve
// images and past the words of the n marks as it was.
#![tactic(auto)]

ghost use Rattle.std.specs.Prelude.{◌≡◌, ◌*◌, ◌≤◌};
ghost use Rattle.lists.specs.Lists.{image};
ghost use Rattle.lists.specs.Premises.{InRange, Lent};
ghost use Rattle.pass.specs.Pass.{pass_of};
ghost use Rattle.pass.specs.Kept.{Kept, KeptMarks};
ghost use Rattle.runs.specs.Runs.{after, outcome_of};

use pose::{Outcome, Pose};
use solve::Step;

pub fn run(
    work: &mut [f32],
    marks: &mut [u64],
    w: usize,
    h: usize,
    eps: f32,
    max_iter: usize,
    sx: f32,
    sy: f32,
) -> Outcome
    requires { InRange w h × Lent (w * h) work.old marks.old × (max_iter ≤ 1000) }
    ensures result_value { let n = w * h in let xs = work.old in
        result ≡ outcome_of sx sy (after (pass_of (image n 8 xs) (image n 2 xs) (image n 3 xs) (image n 4 xs) w h eps) max_iter) }
    ensures kept { Kept (w * h) work.old work.new × KeptMarks (w * h) marks.old marks.new }
{
    let mut at = Pose {
        theta: 0.0,
        tx: 0.0,
        ty: 0.0,
    };
    let mut rho = -1.0f32;
    let mut last = -1.0f32 / 0.0;
    for k in 0..max_iter {
        match pass::pass(work, marks, w, h, eps, at, last) {
            Err(refusal) => {
                return Outcome {
                    passes: k + 1,
                    answer: Err(refusal),
                };
            }
            Ok(Step::Stop(r)) => {
                return Outcome {
                    passes: k + 1,
                    answer: pose::unscaled(sx, sy, at, r),
                };
            }
            Ok(Step::Move(p, r)) => {
                at = p;
                rho = r;
                last = r;
            }
        }
    }
    Outcome {
        passes: max_iter,
        answer: pose::unscaled(sx, sy, at, rho),
    }
}
