// The stretches of marked pixels, one after another, and the fold over all marked pixels that goes by them.

ghost use Rattle.std.specs.Prelude.{◌≡◌, ℕ, ◌-◌, ◌*◌, ◌≤◌, ◌<◌, length};
ghost use Rattle.std.specs.Iterator.{at_most};
ghost use Rattle.lists.specs.Marked.{over_marked, over_range};
ghost use Rattle.marks.specs.Marks.{on};
ghost use Rattle.bits.specs.Words.{unpacked_of};

use crate::{Stretch, next_stretch};

// The stretches that are still to come: those from the pixel `at` on, before `end`.
#[derive(Clone, Copy)]
pub struct MarkedStretches<'a> {
    pub words: &'a [u64],
    pub at: usize,
    pub end: usize,
    pub ghost order: { at ≤ end },
    pub ghost fits: { end ≤ 64 * length words.now },
    pub ghost few: { end ≤ 16777216 },
}

// The stretches of marked pixels from i on, before e.
pub fn marked_stretches(words: &[u64], i: usize, e: usize) -> MarkedStretches<'_>
    requires { (i ≤ e) × (e ≤ 64 * length words.now) × (e ≤ 16777216) }
    ensures { (result.words.now ≡ words.now) × (result.at ≡ i) × (result.end ≡ e) }
{
    MarkedStretches {
        words,
        at: i,
        end: e,
    }
}

impl<'a> Iterator for MarkedStretches<'a> {
    ghost use Rattle.bits.specs.Walks.{NextStretch};

    type Item = Stretch;

    ghost next_gives = { NextStretch };

    ghost remaining = { λ s. at_most (s.end - s.at) };

    fn next(&mut self) -> Option<Stretch> {
        if self.at == self.end {
            return None;
        }
        let r = next_stretch(self.words, self.at, self.end);
        self.at = r.to;
        Some(r)
    }
}

// s, taken by `step` through the places from `from` on, before `to`, in order.
fn fold_range<S: Copy, F: Fn(S, usize) -> S>(from: usize, to: usize, s: S, step: &F) -> S
    requires order { from ≤ to }
    requires callable { (u : S) (k : ℕ) → k < to → F.pre step.now u k }
    ensures { (g : S → ℕ → S) → ((u : S) (k : ℕ) (r : S) → k < to → F.post step.now u k r → r ≡ g u k) → result ≡ over_range g s from (to - from) }
{
    let mut t = s;
    for i in from..to {
        t = step(t, i);
    }
    t
}

// s, taken by `step` through the marked pixels from `from` on, before `to`, in order. Between two stretches no pixel is tested.
pub fn fold_marked<S: Copy, F: Fn(S, usize) -> S>(
    words: &[u64],
    from: usize,
    to: usize,
    s: S,
    step: F,
) -> S
    requires within { (from ≤ to) × (to ≤ 64 * length words.now) × (to ≤ 16777216) }
    requires callable { (u : S) (k : ℕ) → k < to → F.pre step u k }
    ensures { (n : ℕ) (g : S → ℕ → S) (z : S) → to ≤ n → ((u : S) (k : ℕ) (r : S) → k < to → F.post step u k r → r ≡ g u k) →
        let m = on (unpacked_of words.now n) in s ≡ over_marked m g z from → result ≡ over_marked m g z to }
{
    let mut t = s;
    for r in marked_stretches(words, from, to) {
        t = fold_range(r.from, r.to, t, &step);
    }
    t
}
