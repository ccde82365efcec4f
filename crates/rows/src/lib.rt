// Which rows hold a mark: none of them, or the first and the last that do. What follows the warp walks these rows and no others.
#![tactic(auto)]

ghost use Rattle.std.specs.Prelude.{◌≡◌, true, ℕ, ◌+◌, ◌*◌, ◌≤◌, ◌<◌, length, Some, None};
ghost use Rattle.lists.specs.Premises.{InRange};
ghost use Rattle.lists.specs.Marked.{words_for};
ghost use Rattle.bits.specs.Words.{unpacked_of};
ghost use Rattle.rows.specs.Rows.{row_marked, marked_rows_of};
ghost use Rattle.rows.specs.Between.{pixels_of};

use bits::Stretch;

// The rows from `first` to `last`, both among them.
#[derive(Clone, Copy)]
pub struct Rows {
    pub first: usize,
    pub last: usize,
}

// Whether the row y holds a mark.
fn row_marked(words: &[u64], w: usize, y: usize) -> bool
    requires { (w ≤ 4096) × (y < 4096) × (y * w + w ≤ 64 * length words.now) }
    ensures { (n : ℕ) → y * w + w ≤ n → result ≡ row_marked (unpacked_of words.now n) w y }
{
    let from = y * w;
    let to = from + w;
    let r = bits::next_stretch(words, from, to);
    r.from < to
}

// The last row that holds a mark, where `first` is the first that does: looked for from below.
fn last_row(words: &[u64], w: usize, h: usize, first: usize) -> usize
    requires { InRange w h × (words_for (w * h) ≤ length words.now) × (first < h) × (marked_rows_of (unpacked_of words.now (w * h)) w first ≡ None)
        × (row_marked (unpacked_of words.now (w * h)) w first ≡ true) }
    ensures { marked_rows_of (unpacked_of words.now (w * h)) w h ≡ Some (record { first = first; last = result }) }
{
    for y in (first + 1..h).rev() {
        if row_marked(words, w, y) {
            return y;
        }
    }
    first
}

// The first and the last of h rows of w pixels each that hold a mark, if there is one.
pub fn marked_rows(words: &[u64], w: usize, h: usize) -> Option<Rows>
    requires { InRange w h × (words_for (w * h) ≤ length words.now) }
    ensures { result ≡ marked_rows_of (unpacked_of words.now (w * h)) w h }
{
    for y in 0..h {
        if row_marked(words, w, y) {
            let last = last_row(words, w, h, y);
            return Some(Rows { first: y, last });
        }
    }
    None
}

// The pixels of these rows.
pub fn pixels(rows: Rows, w: usize) -> Stretch
    requires { (rows.first ≤ rows.last) × (rows.last < 4096) × (w ≤ 4096) }
    ensures { result ≡ pixels_of rows w }
{
    Stretch {
        from: rows.first * w,
        to: (rows.last + 1) * w,
    }
}
