// A vector's sides and filter, held to what the arrays of the tests have room for.
ghost use Rattle.std.specs.Prelude.{◌+◌, ◌≤◌};
ghost use Rattle.words.specs.Words.{stored_at};
ghost use Rattle.vectors.specs.Shapes.{OneSide, Shaped, Filtered};

use words::word;

// A side from 1 to 4,096.
#[tactic(auto, unfolding(lists::specs::Premises::is_side))]
pub fn side(words: &[u64], i: usize) -> Option<usize>
    ensures { OneSide (stored_at words.now i) result }
{
    match word(words, i) {
        v @ 1..=4096 => Some(v as usize),
        _ => None,
    }
}

// An image's sides and pixels, within the local arrays.
#[derive(Clone, Copy)]
pub struct Shape {
    pub w: usize,
    pub h: usize,
    pub n: usize,
}

pub fn sides_at(words: &[u64], i: usize) -> Option<Shape>
    requires { i ≤ 8 }
    ensures { Shaped (stored_at words.now i) (stored_at words.now (i + 1)) result }
{
    let w = side(words, i)?;
    let h = side(words, i + 1)?;
    let n = w * h;
    if n > 1024 {
        return None;
    }
    Some(Shape { w, h, n })
}

// An odd number up to 31.
#[tactic(auto, unfolding(crate::specs::Shapes::is_filter))]
pub fn filter(words: &[u64], i: usize) -> Option<usize>
    ensures { Filtered (stored_at words.now i) result }
{
    match word(words, i) {
        v @ 1..=31 if v % 2 == 1 => Some(v as usize),
        _ => None,
    }
}
