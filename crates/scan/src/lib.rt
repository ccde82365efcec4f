// A whole number in decimal, read from bytes. What stands there may be anything, and of any length.
#![tactic(auto)]

ghost use Rattle.std.specs.Prelude.{◌≡◌, ◌+◌, ◌-◌, ◌*◌, ◌≤◌, min};
ghost use Rattle.scan.specs.Scan.{is_digit, digits_at};

#[derive(Clone, Copy)]
pub struct Digits {
    pub value: usize,
    // The index after the last digit.
    pub next: usize,
}

#[tactic(auto, unfolding(crate::specs::Scan::is_digit))]
pub fn is_digit(b: u8) -> bool
    ensures { result ≡ is_digit b }
{
    b.is_ascii_digit()
}

// A number with one more digit, held to most.
fn with(value: usize, b: u8, most: usize) -> usize
    requires { (value ≤ most) × (most ≤ 4294967296) × (48 ≤ b) }
    ensures { result ≡ min (10 * value + (b - 48)) most }
{
    (10 * value + usize::from(b - b'0')).min(most)
}

// The digits from index at on, of which there may be none: the number that they make behind the number before them, held to most, and the
// index after them.
pub fn digits_at(s: &[u8], at: usize, before: usize, most: usize) -> Digits
    requires { (before ≤ most) × (most ≤ 4294967296) }
    ensures { result ≡ digits_at s.now at before most }
{
    let mut value = before;
    for next in at..s.len() {
        let b = s[next];
        if !is_digit(b) {
            return Digits { value, next };
        }
        value = with(value, b, most);
    }
    Digits {
        value,
        next: s.len().max(at),
    }
}
