// The image stages: sides, resize, kernel, blur, gradients, prepared images. Images are small enough for local arrays.
ghost use Rattle.std.specs.Prelude.{◌≡◌, ℕ, ◌*◌, ◌≤◌, List, Float, length};
ghost use Rattle.lists.specs.Lists.{image, set_image};
ghost use Rattle.lists.specs.Premises.{InRange};
ghost use Rattle.gradients.specs.Gradients.{gradient_x, gradient_y};
ghost use Rattle.vectors.specs.Images.{sides_agree, resize_agrees, kernel_agrees, blur_agrees, gradient_agrees, prepared_agrees};

use crate::shapes::{filter, side, sides_at};
use words::{bytes, floats, same_floats, word};

// edge, w, h; the sides after.
#[tactic(auto, unfolding(crate::specs::Images::sides_agree))]
pub fn sides(words: &[u64]) -> bool
    ensures { result ≡ sides_agree words.now }
{
    let Some(w) = side(words, 2) else {
        return false;
    };
    let Some(h) = side(words, 3) else {
        return false;
    };
    let s = settings::resized(word(words, 1) as usize, w, h);
    (s.w as u64) == word(words, 4) && (s.h as u64) == word(words, 5)
}

// w, h, the sides after, bytes; numbers.
#[tactic(auto, unfolding(crate::specs::Images::resize_agrees))]
pub fn resized(words: &[u64]) -> bool
    ensures { result ≡ resize_agrees words.now }
{
    let Some(s) = sides_at(words, 1) else {
        return false;
    };
    let Some(t) = sides_at(words, 3) else {
        return false;
    };
    let mut src = [0u8; 1024];
    let mut out = [0.0f32; 1024];
    bytes(words, 5, &mut src);
    resize::resize_bilinear(&src[..s.n], s.w, s.h, t.w, t.h, &mut out);
    same_floats(words, 5 + s.n, t.n, &out, 0)
}

// The kernel's size; weights.
#[tactic(auto, unfolding(crate::specs::Images::kernel_agrees, crate::specs::Shapes::is_kernel))]
pub fn kernel(words: &[u64]) -> bool
    ensures { result ≡ kernel_agrees words.now }
{
    let Some(ksize) = filter(words, 1) else {
        return false;
    };
    if ksize < 3 {
        return false;
    }
    let mut k = [0.0f32; 31];
    kernel::gaussian_kernel(ksize, &mut k);
    same_floats(words, 2, ksize, &k, 0)
}

// w, h, the kernel's size, numbers; numbers.
#[tactic(auto, unfolding(crate::specs::Images::blur_agrees, crate::specs::Shapes::is_kernel))]
pub fn blurred(words: &[u64]) -> bool
    ensures { result ≡ blur_agrees words.now }
{
    let Some(s) = sides_at(words, 1) else {
        return false;
    };
    let Some(ksize) = filter(words, 3) else {
        return false;
    };
    if ksize < 3 {
        return false;
    }
    let mut part = [0.0f32; 3072];
    floats(words, 4, s.n, &mut part, 0);
    blur::gaussian_blur_separable(&mut part, s.w, s.h, ksize);
    same_floats(words, 4 + s.n, s.n, &part, 2 * s.n)
}

// w, h, numbers; numbers. `gradient` leaves its answer in the part's image k; what is ensured holds of any rule that it goes by.
fn graded<G: FnOnce(&mut [f32], usize, usize)>(words: &[u64], k: usize, gradient: G) -> bool
    requires place { (1 ≤ k) × (k ≤ 2) }
    requires callable { (p : _) (w h : ℕ) → InRange w h → 3 * (w * h) ≤ length p.now → G.pre gradient p w h }
    ensures { (rule : ℕ → ℕ → List Float → List Float) → ((w h : ℕ) (xs : List Float) → length (rule w h xs) ≡ w * h)
        → ((p q : _) (w h : ℕ) (r : _) → G.post gradient p w h r q → q.now ≡ set_image (w * h) k (rule w h (image (w * h) 0 p.now)) p.now)
        → result ≡ gradient_agrees rule words.now }
{
    let Some(s) = sides_at(words, 1) else {
        return false;
    };
    let mut part = [0.0f32; 3072];
    floats(words, 3, s.n, &mut part, 0);
    gradient(&mut part, s.w, s.h);
    same_floats(words, 3 + s.n, s.n, &part, k * s.n)
}

pub fn across(words: &[u64]) -> bool
    ensures { result ≡ gradient_agrees gradient_x words.now }
{
    graded(words, 1, gradients::gradient_x)
}

pub fn down(words: &[u64]) -> bool
    ensures { result ≡ gradient_agrees gradient_y words.now }
{
    graded(words, 2, gradients::gradient_y)
}

// w, h, the sides after, the kernel's size, bytes; numbers.
#[tactic(auto, unfolding(crate::specs::Images::prepared_agrees))]
pub fn prepared(words: &[u64]) -> bool
    ensures { result ≡ prepared_agrees words.now }
{
    let Some(s) = sides_at(words, 1) else {
        return false;
    };
    let Some(t) = sides_at(words, 3) else {
        return false;
    };
    let Some(ksize) = filter(words, 5) else {
        return false;
    };
    let mut src = [0u8; 1024];
    let mut work = [0.0f32; 12288];
    bytes(words, 6, &mut src);
    prepare::prepare(&mut work, 6, &src[..s.n], s.w, s.h, t.w, t.h, ksize);
    same_floats(words, 6 + s.n, t.n, &work, 8 * t.n)
}
