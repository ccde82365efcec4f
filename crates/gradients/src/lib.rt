// gradient_x and gradient_y: half the difference of the two neighbours; at an edge the pixel stands for its missing neighbour. Each
// is lent three images one after another and reads the first: gradient_x leaves its answer in the second, gradient_y in the third.
//
// Both are runs of half differences, with no test in the loop: a row of gradient_y is one run, a row of gradient_x is its first pixel,
// those between and its last.
#![tactic(auto)]

ghost use Rattle.std.specs.Prelude.{◌≡◌, ◌+◌, ◌*◌, ◌≤◌, ◌<◌, length, get_or};
ghost use Rattle.std.specs.Float.{nan};
ghost use Rattle.lists.specs.Lists.{tab, put, image, set_image};
ghost use Rattle.lists.specs.Premises.{InRange};
ghost use Rattle.floats.specs.F32.{◌⊖◌, ◌⊗◌, half};
ghost use Rattle.gradients.specs.Gradients.{before_of, after_of, gradient_x, gradient_y};

// From `to` on m numbers: half of what stands from `next` on less what stands from `prev` on.
fn half_differences(part: &mut [f32], to: usize, next: usize, prev: usize, m: usize)
    requires { (next + m ≤ to) × (prev + m ≤ to) × (to + m ≤ length part.old) }
    ensures { part.new ≡ put part.old to
        (tab m (λ k. half ⊗ (get_or part.old (next + k) nan ⊖ get_or part.old (prev + k) nan))) }
{
    for k in 0..m {
        part[to + k] = 0.5 * (part[next + k] - part[prev + k]);
    }
}

// The row of w pixels from `at` on, within the first n: its gradient, from n + `at` on.
fn gradient_x_row(part: &mut [f32], at: usize, n: usize, w: usize)
    requires { (1 ≤ w) × (at + w ≤ n) × (n + at + w ≤ length part.old) }
    ensures { part.new ≡ put part.old (n + at)
        (tab w (λ x. half ⊗ (get_or part.old (at + after_of w x) nan ⊖ get_or part.old (at + before_of x) nan))) }
{
    let to = n + at;
    if w < 2 {
        half_differences(part, to, at, at, 1);
        return;
    }
    let last = at + w - 1;
    half_differences(part, to, at + 1, at, 1);
    half_differences(part, to + 1, at + 2, at, w - 2);
    half_differences(part, n + last, last, last - 1, 1);
}

pub fn gradient_x(part: &mut [f32], w: usize, h: usize)
    requires { InRange w h × (3 * (w * h) ≤ length part.old) }
    ensures { part.new ≡ set_image (w * h) 1 (gradient_x w h (image (w * h) 0 part.old)) part.old }
{
    let n = w * h;
    for y in 0..h {
        gradient_x_row(part, y * w, n, w);
    }
}

// The row above y.
fn row_above(y: usize) -> usize
    ensures { result ≡ before_of y }
{
    y.saturating_sub(1)
}

// The row below y, of h.
fn row_below(y: usize, h: usize) -> usize
    requires { y < h }
    ensures { result ≡ after_of h y }
{
    (y + 1).min(h - 1)
}

pub fn gradient_y(part: &mut [f32], w: usize, h: usize)
    requires { InRange w h × (3 * (w * h) ≤ length part.old) }
    ensures { part.new ≡ set_image (w * h) 2 (gradient_y w h (image (w * h) 0 part.old)) part.old }
{
    let n = w * h;
    for y in 0..h {
        let u = row_above(y);
        let d = row_below(y, h);
        half_differences(part, 2 * n + y * w, d * w, u * w, w);
    }
}
