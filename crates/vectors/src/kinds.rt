// What a vector tests: the kind whose number stands first in it.
ghost use Rattle.std.specs.Prelude.{Some};
ghost use Rattle.vectors.specs.Kinds.{Names, kind_text};

use std::fmt;

// Each kind with the number that it has in a stored vector.
#[derive(Clone, Copy, Debug, PartialEq, Eq)]
pub enum Kind {
    Sqrt = 1,
    Cos = 2,
    Sin = 3,
    ExpNeg = 4,
    Floor = 5,
    Round = 6,
    Abs = 7,
    IsFinite = 8,
    ToF32 = 9,
    AsUsize = 10,
    Sides = 16,
    Resize = 17,
    Kernel = 18,
    Blur = 19,
    GradientX = 20,
    GradientY = 21,
    Prepare = 22,
    Warp = 23,
    Stats = 24,
    TryInverse = 25,
    Call = 26,
    Pins = 27,
    Rows = 28,
}

// A number that no kind has.
#[derive(Clone, Copy, Debug, PartialEq, Eq)]
pub struct UnknownKind;

impl Kind {
    // In the order of their numbers.
    pub const ALL: [Kind; 23] = [
        Kind::Sqrt,
        Kind::Cos,
        Kind::Sin,
        Kind::ExpNeg,
        Kind::Floor,
        Kind::Round,
        Kind::Abs,
        Kind::IsFinite,
        Kind::ToF32,
        Kind::AsUsize,
        Kind::Sides,
        Kind::Resize,
        Kind::Kernel,
        Kind::Blur,
        Kind::GradientX,
        Kind::GradientY,
        Kind::Prepare,
        Kind::Warp,
        Kind::Stats,
        Kind::TryInverse,
        Kind::Call,
        Kind::Pins,
        Kind::Rows,
    ];
}

impl TryFrom<u64> for Kind {
    type Error = UnknownKind;

    ghost try_from_gives = { Names };

    fn try_from(number: u64) -> Result<Self, UnknownKind> {
        match number {
            1 => Ok(Kind::Sqrt),
            2 => Ok(Kind::Cos),
            3 => Ok(Kind::Sin),
            4 => Ok(Kind::ExpNeg),
            5 => Ok(Kind::Floor),
            6 => Ok(Kind::Round),
            7 => Ok(Kind::Abs),
            8 => Ok(Kind::IsFinite),
            9 => Ok(Kind::ToF32),
            10 => Ok(Kind::AsUsize),
            16 => Ok(Kind::Sides),
            17 => Ok(Kind::Resize),
            18 => Ok(Kind::Kernel),
            19 => Ok(Kind::Blur),
            20 => Ok(Kind::GradientX),
            21 => Ok(Kind::GradientY),
            22 => Ok(Kind::Prepare),
            23 => Ok(Kind::Warp),
            24 => Ok(Kind::Stats),
            25 => Ok(Kind::TryInverse),
            26 => Ok(Kind::Call),
            27 => Ok(Kind::Pins),
            28 => Ok(Kind::Rows),
            _ => Err(UnknownKind),
        }
    }
}

// What a kind tests, by name.
impl fmt::Display for Kind {
    ghost output = { λ kind. Some (kind_text kind) };

    fn fmt<W: fmt::Write>(&self, f: &mut fmt::Formatter<W>) -> fmt::Result {
        match self {
            Kind::Sqrt => f.write_str("sqrt"),
            Kind::Cos => f.write_str("cos"),
            Kind::Sin => f.write_str("sin"),
            Kind::ExpNeg => f.write_str("exp_neg"),
            Kind::Floor => f.write_str("floor"),
            Kind::Round => f.write_str("round"),
            Kind::Abs => f.write_str("abs"),
            Kind::IsFinite => f.write_str("is_finite"),
            Kind::ToF32 => f.write_str("to_f32"),
            Kind::AsUsize => f.write_str("as_usize"),
            Kind::Sides => f.write_str("resized sides"),
            Kind::Resize => f.write_str("resize_bilinear"),
            Kind::Kernel => f.write_str("gaussian_kernel"),
            Kind::Blur => f.write_str("gaussian_blur_separable"),
            Kind::GradientX => f.write_str("gradient_x"),
            Kind::GradientY => f.write_str("gradient_y"),
            Kind::Prepare => f.write_str("prepared images"),
            Kind::Warp => f.write_str("warp_three_inverse_map"),
            Kind::Stats => f.write_str("centered_stats_in_place"),
            Kind::TryInverse => f.write_str("try_inverse"),
            Kind::Call => f.write_str("whole calls"),
            Kind::Pins => f.write_str("driver numbers"),
            Kind::Rows => f.write_str("marked rows"),
        }
    }
}
