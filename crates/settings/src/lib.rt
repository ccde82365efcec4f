// The settings record, and the sides that a frame has after resizing.
//
// Any value of each field may be handed in; what is out of range is refused by the alignment. The sides after resizing are at
// most 4,096, so an image has at most 2^24 pixels.
#![tactic(auto)]

ghost use Rattle.std.specs.Prelude.{◌≡◌, ◌≤◌};
ghost use Rattle.lists.specs.Premises.{InRange};
ghost use Rattle.floats.specs.Bound.{UpTo};
ghost use Rattle.settings.specs.Settings.{defaults_of, edge_of};
ghost use Rattle.settings.specs.Sides.{scaled_side_of, side_of, resized_of};

#[derive(Clone, Copy)]
pub struct EccConfig {
    pub eps: f32,
    pub max_iter: usize,
    pub gauss_filt_size: usize,
    // None, or an edge length for the longer side. Length 0 means none.
    pub resize_long_edge: Option<usize>,
}

impl EccConfig {
    pub const MOST_SIDE: usize = 4096;

    pub const MOST_FILTER: usize = 31;

    pub const MOST_PASSES: usize = 1000;

    pub fn defaults() -> Self
        ensures { result ≡ defaults_of }
    {
        EccConfig {
            eps: 0.0001,
            max_iter: 100,
            gauss_filt_size: 1,
            resize_long_edge: Some(350),
        }
    }

    // The edge length, 0 for none.
    pub fn edge(self) -> usize
        ensures { result ≡ edge_of self }
    {
        self.resize_long_edge.unwrap_or(0)
    }
}

#[derive(Clone, Copy)]
pub struct Sides {
    pub w: usize,
    pub h: usize,
}

// A side times edge / long in f32, before it is rounded.
fn scaled(edge: usize, long: usize, s: usize) -> f32
    requires { (long ≤ 4096) × (edge ≤ long) × (1 ≤ long) × (s ≤ long) }
    ensures { (result ≡ scaled_side_of edge long s) × UpTo result 4096 1 }
{
    numbers::to_f32(s) * (numbers::to_f32(edge) / numbers::to_f32(long))
}

// One side after resizing, where the longer side exceeds the edge.
fn side(edge: usize, long: usize, s: usize) -> usize
    requires { (long ≤ 4096) × (edge ≤ long) × (1 ≤ long) × (s ≤ long) }
    ensures { (result ≡ side_of edge long s) × (8 ≤ result) × (result ≤ 4096) }
{
    let v = numbers::as_usize(numbers::round(scaled(edge, long, s)));
    if v < 8 { 8 } else { v }
}

// Both sides after resizing.
pub fn resized(edge: usize, w: usize, h: usize) -> Sides
    requires { InRange w h }
    ensures { (result ≡ resized_of edge w h) × InRange result.w result.h }
{
    let long = if w < h { h } else { w };
    if edge > 0 {
        if long > edge {
            return Sides {
                w: side(edge, long, w),
                h: side(edge, long, h),
            };
        }
    }
    Sides { w, h }
}
