// Records as bytes, put at the front of a lent slice: what the program `pinlog` reads.
//
// These are inner parts: the caller sees to it that there is room and that each number fits its field.
#![tactic(auto)]

ghost use Rattle.std.specs.Prelude.{◌≡◌, ◌+◌, ◌*◌, ◌≤◌, length};
ghost use Rattle.lists.specs.Lists.{put};
ghost use Rattle.encode.specs.Bytes.{half_bytes, word_bytes, start_bytes, settings_bytes, head_bytes};

// The low 16 bits of n, low byte first.
fn put_half(out: &mut [u8], at: usize, n: usize)
    requires { at + 2 ≤ length out.old }
    ensures { out.new ≡ put out.old at (half_bytes n) }
{
    let low = (n % 65536) as u16;
    out[at..at + 2].copy_from_slice(&low.to_le_bytes());
}

// The low 32 bits of n, low byte first.
fn put_word(out: &mut [u8], at: usize, n: usize)
    requires { at + 4 ≤ length out.old }
    ensures { out.new ≡ put out.old at (word_bytes n) }
{
    let low = (n % 4294967296) as u32;
    out[at..at + 4].copy_from_slice(&low.to_le_bytes());
}

// The length and the kind of a record with a body of so many bytes.
fn put_start(out: &mut [u8], size: usize, kind: usize)
    requires { (6 ≤ length out.old) × (size ≤ 4294967293) }
    ensures { out.new ≡ put out.old 0 (start_bytes size kind) }
{
    put_word(out, 0, size + 2);
    put_half(out, 4, kind);
}

// A settings record, 20 bytes.
pub fn put_settings(out: &mut [u8], eps: usize, passes: usize, filter: usize, edge: usize)
    requires { 20 ≤ length out.old }
    ensures { out.new ≡ put out.old 0 (settings_bytes eps passes filter edge) }
{
    put_start(out, 14, 1);
    put_word(out, 6, eps);
    put_word(out, 10, passes);
    put_half(out, 14, filter);
    put_word(out, 16, edge);
}

// The first 10 bytes of a frame record, before its pixels.
pub fn put_head(out: &mut [u8], w: usize, h: usize)
    requires { (10 ≤ length out.old) × (w ≤ 65535) × (h ≤ 65535) }
    ensures { out.new ≡ put out.old 0 (head_bytes w h) }
{
    put_start(out, 4 + w * h, 2);
    put_half(out, 6, w);
    put_half(out, 8, h);
}
