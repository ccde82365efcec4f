// A line of words: hexadecimal numbers up to 64 bits, a space between two, `#` before what is passed over.
ghost use Rattle.std.specs.Prelude.{◌≡◌, ◌<◌, length};
ghost use Rattle.words.specs.Reading.{digit_of, no_word, closed_of, closed_in, line_after, words_after};

// The words so far are the first `count` of the lent slice. `value` is the word that is being read, if `open`. A flag, and no Option: `with` takes
// lines of any value, open or not, and `line_after` says what comes of each.
#[derive(Clone, Copy)]
pub struct Line {
    pub count: usize,
    pub value: u64,
    pub open: bool,
    // No value stands beside it: what is passed over is not kept.
    pub skip: bool,
}

impl Line {
    pub fn new() -> Self
        ensures { result ≡ no_word }
    {
        Line {
            count: 0,
            value: 0,
            open: false,
            skip: false,
        }
    }

    // The line with its open word put away. A word past the slice's end is dropped.
    #[tactic(auto, unfolding(crate::specs::Reading::closed_of, crate::specs::Reading::closed_in, lists::specs::Marked::pick))]
    pub fn closed(self, words: &mut [u64]) -> Line
        ensures { (result ≡ closed_of self (length words.old)) × (words.new ≡ closed_in self words.old) }
    {
        if self.open && self.count < words.len() {
            words[self.count] = self.value;
            return Line {
                count: self.count + 1,
                value: 0,
                open: false,
                ..self
            };
        }
        self
    }

    // The line after one more byte that ends no line.
    #[tactic(auto, unfolding(crate::specs::Reading::line_after, crate::specs::Reading::words_after, lists::specs::Marked::pick))]
    pub fn with(self, words: &mut [u64], b: u8) -> Line
        ensures { (result ≡ line_after self (length words.old) b) × (words.new ≡ words_after self b words.old) }
    {
        if self.skip {
            return self;
        }
        match b {
            b' ' => self.closed(words),
            b'#' => Line {
                value: 0,
                open: false,
                skip: true,
                ..self.closed(words)
            },
            _ => Line {
                value: self.value % 0x1000_0000_0000_0000 * 16 + digit(b),
                open: true,
                ..self
            },
        }
    }
}

// A hexadecimal digit's value; any other byte counts as 0.
#[tactic(auto, unfolding(crate::specs::Reading::digit_of, lists::specs::Marked::pick))]
fn digit(b: u8) -> u64
    ensures { (result ≡ digit_of b) × (result < 16) }
{
    match b {
        b'0'..=b'9' => u64::from(b - b'0'),
        b'a'..=b'f' => u64::from(b - b'a') + 10,
        _ => 0,
    }
}
