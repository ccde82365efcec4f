// Whether the code gives the answer that a vector has. A vector is a list of words, its kind first; tools/vectors says how each list is
// made. A vector that is not well formed, or outside a function's range, does not agree.
#![tactic(auto)]

ghost use Rattle.std.specs.Prelude.{◌≡◌};
ghost use Rattle.vectors.specs.Vectors.{agrees_of};

mod helpers;
mod images;
mod kinds;
mod passes;
mod shapes;

use helpers::{fades, turns, widens};
pub use kinds::{Kind, UnknownKind};
use words::{float, same, word};

// A helper's vector is its kind, the argument and the answer. Those of whole calls and of driver numbers are for crate calls.
#[tactic(auto, unfolding(crate::specs::Vectors::agrees_of, crate::specs::Helpers::helper_agrees, crate::specs::Images::image_agrees, crate::specs::Passes::pass_agrees, lists::specs::Marked::pick))]
pub fn agrees(words: &[u64]) -> bool
    ensures { result ≡ agrees_of words.now }
{
    let Ok(kind) = Kind::try_from(word(words, 0)) else {
        return false;
    };
    let a = word(words, 1);
    let x = float(a);
    let w = word(words, 2);
    match kind {
        Kind::Sqrt => same(root::sqrt(x), w),
        Kind::Cos => turns(x) && same(series::cos(x), w),
        Kind::Sin => turns(x) && same(series::sin(x), w),
        Kind::ExpNeg => fades(x) && same(series::exp_neg(x), w),
        Kind::Floor => same(numbers::floor(x), w),
        Kind::Round => same(numbers::round(x), w),
        Kind::Abs => same(numbers::abs(x), w),
        Kind::IsFinite => u64::from(numbers::is_finite(x)) == w,
        Kind::ToF32 => widens(a) && same(numbers::to_f32(a as usize), w),
        Kind::AsUsize => numbers::as_usize(x) as u64 == w,
        Kind::Sides => images::sides(words),
        Kind::Resize => images::resized(words),
        Kind::Kernel => images::kernel(words),
        Kind::Blur => images::blurred(words),
        Kind::GradientX => images::across(words),
        Kind::GradientY => images::down(words),
        Kind::Prepare => images::prepared(words),
        Kind::Warp => passes::warped(words),
        Kind::Stats => passes::centred(words),
        Kind::TryInverse => passes::inverted(words),
        Kind::Rows => passes::rows_marked(words),
        Kind::Call | Kind::Pins => false,
    }
}
