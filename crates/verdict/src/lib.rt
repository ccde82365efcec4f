// What a pass decides between its statistics and its update, by document 01's tests in their order: a norm that is too small (6), a
// correlation that is not finite (7), a correlation that has settled. A NaN norm is not too small; it makes the correlation a NaN. Over
// prepared frames 7 is never given (specs/Finite.antt, crate seven).
#![tactic(auto)]

ghost use Rattle.std.specs.Prelude.{◌≡◌};
ghost use Rattle.verdict.specs.Verdict.{stops, verdict_of};

use refusals::Refusal;
use stats::Stats;

// Where the tests pass: the correlation, and whether it has settled.
#[derive(Clone, Copy)]
pub enum Verdict {
    Settled(f32),
    Unsettled(f32),
}

// Whether the correlation has settled.
fn settled(rho: f32, last: f32, eps: f32) -> bool
    ensures { result ≡ stops rho last eps }
{
    numbers::is_finite(last) && numbers::abs(rho - last) < eps
}

// The verdict over the statistics of a pass: 6, 7, or whether the correlation has settled within eps of the last one.
pub fn judge(s: Stats, last: f32, eps: f32) -> Result<Verdict, Refusal>
    ensures { result ≡ verdict_of s last eps }
{
    if s.tmp_norm <= 0.000001 {
        return Err(Refusal::Flat);
    }
    if s.img_norm <= 0.000001 {
        return Err(Refusal::Flat);
    }
    let rho = s.corr / (s.img_norm * s.tmp_norm);
    if !numbers::is_finite(rho) {
        return Err(Refusal::RhoNotFinite);
    }
    if settled(rho, last, eps) {
        return Ok(Verdict::Settled(rho));
    }
    Ok(Verdict::Unsettled(rho))
}
