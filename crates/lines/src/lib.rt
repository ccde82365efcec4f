// What is printed of a frame: its position from 1, the number of its answer, the passes, and the numbers for the pins.
#![tactic(auto)]

ghost use Rattle.std.specs.Prelude.{◌≡◌, ◌<◌};
ghost use Rattle.lines.specs.Lines.{line_of};

use pose::Outcome;

// What is printed of a frame.
#[derive(Clone, Copy)]
pub struct Line {
    pub position: u64,
    pub number: u8,
    pub passes: usize,
    pub dx: i16,
    pub dy: i16,
    pub turn: i16,
}

// The line of a frame of w by h pixels that comes after so many others.
#[tactic(auto, unfolding(crate::specs::Lines::line_of))]
pub fn line_of(frames: u64, outcome: Outcome, w: usize, h: usize) -> Line
    requires { frames < 18446744073709551615 }
    ensures { result ≡ line_of frames outcome w h }
{
    let answer = outcome.answer;
    let pins = driver::pins_of(answer, w, h);
    Line {
        position: frames + 1,
        number: pose::number_of(answer),
        passes: outcome.passes,
        dx: pins.dx,
        dy: pins.dy,
        turn: pins.turn,
    }
}
