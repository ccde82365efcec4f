// Lent memory filled with zeros: floats with +0, words with 0. What stands before and after stays as it was.
#![tactic(auto)]

ghost use Rattle.std.specs.Prelude.{◌≡◌, ◌+◌, ◌≤◌, length};
ghost use Rattle.lists.specs.Lists.{tab, put};
ghost use Rattle.floats.specs.F32.{0f};

// The `len` numbers from `dst` on become +0.
pub fn fill_floats(part: &mut [f32], dst: usize, len: usize)
    requires { dst + len ≤ length part.old }
    ensures { part.new ≡ put part.old dst (tab len (λ _. 0f)) }
{
    part[dst..dst + len].fill(0.0);
}

// The first `len` words become 0.
pub fn fill_words(words: &mut [u64], len: usize)
    requires { len ≤ length words.old }
    ensures { words.new ≡ put words.old 0 (tab len (λ _. 0)) }
{
    words[..len].fill(0);
}
