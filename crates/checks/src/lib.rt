// The alignment's own checks of sides, lengths, settings and room, in document 01's order. Any numbers may be handed in.
#![tactic(auto)]

ghost use Rattle.std.specs.Prelude.{◌≡◌, ◌≤◌};
ghost use Rattle.lists.specs.Premises.{InRange};
ghost use Rattle.refusals.specs.Refusals.{checked};
ghost use Rattle.checks.specs.Checks.{size_of, room_of, limits_of, check_of};

use refusals::Refusal;
use settings::EccConfig;

// How many pixels an image has after resizing.
fn size(cfg: EccConfig, w: usize, h: usize) -> usize
    requires { InRange w h }
    ensures { (result ≡ size_of cfg w h) × (result ≤ 16777216) }
{
    let s = settings::resized(cfg.edge(), w, h);
    s.w * s.h
}

// The room that sides and settings in range need: 12n floats, and words for n marks, sixty-four to a word.
fn room(cfg: EccConfig, w: usize, h: usize, work: usize, marks: usize) -> Result<(), Refusal>
    requires { InRange w h }
    ensures { result ≡ checked (room_of cfg w h work marks) }
{
    let n = size(cfg, w, h);
    if work < 12 * n {
        return Err(Refusal::RoomTooShort);
    }
    if marks < (n + 63) / 64 {
        return Err(Refusal::RoomTooShort);
    }
    Ok(())
}

// The refusal of the first check that fails. Template, input, work and marks are given by their lengths.
pub fn check(
    template: usize,
    input: usize,
    w: usize,
    h: usize,
    cfg: EccConfig,
    work: usize,
    marks: usize,
) -> Result<(), Refusal>
    ensures { result ≡ checked (check_of template input w h cfg work marks) }
{
    if w > EccConfig::MOST_SIDE {
        return Err(Refusal::SideTooLarge);
    }
    if h > EccConfig::MOST_SIDE {
        return Err(Refusal::SideTooLarge);
    }
    if w == 0 {
        return Err(Refusal::InvalidInput);
    }
    if h == 0 {
        return Err(Refusal::InvalidInput);
    }
    if template != w * h {
        return Err(Refusal::InvalidInput);
    }
    if input != w * h {
        return Err(Refusal::InvalidInput);
    }
    limits(cfg, w, h, work, marks)
}

// The settings' limits, then the room.
fn limits(cfg: EccConfig, w: usize, h: usize, work: usize, marks: usize) -> Result<(), Refusal>
    requires { InRange w h }
    ensures { result ≡ checked (limits_of cfg w h work marks) }
{
    let ksize = cfg.gauss_filt_size;
    if ksize % 2 == 0 {
        return Err(Refusal::InvalidInput);
    }
    if ksize > EccConfig::MOST_FILTER {
        return Err(Refusal::SettingTooLarge);
    }
    if cfg.max_iter > EccConfig::MOST_PASSES {
        return Err(Refusal::SettingTooLarge);
    }
    room(cfg, w, h, work, marks)
}
