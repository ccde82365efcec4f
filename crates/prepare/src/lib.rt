// A frame of bytes made ready: as f32, resized if a side changes, blurred. The work slice holds equal images of n numbers one after
// another; the prepared image is put in the image j + 2, and a blur leaves what it starts from in j and its first pass in j + 1.
#![tactic(auto)]

ghost use Rattle.std.specs.Prelude.{◌≡◌, ◌+◌, ◌*◌, ◌%◌, ◌≤◌, length};
ghost use Rattle.lists.specs.Lists.{put, image, set_image};
ghost use Rattle.lists.specs.Premises.{InRange, OddFilter};
ghost use Rattle.blur.specs.Blur.{rows_of, columns_of};
ghost use Rattle.prepare.specs.Prepared.{gray_of, scaled_of, prepared_in};

// The front of `out` becomes the bytes as f32.
fn gray_u8_to_f32(img: &[u8], out: &mut [f32])
    requires { length img.now ≤ length out.old }
    ensures { out.new ≡ put out.old 0 (gray_of img.now) }
{
    for i in 0..img.len() {
        out[i] = numbers::byte_to_f32(img[i]);
    }
}

// The front of `out` becomes the frame as f32, resized if a side changes.
pub fn load(bytes: &[u8], w: usize, h: usize, tw: usize, th: usize, out: &mut [f32])
    requires { InRange w h × InRange tw th × (length bytes.now ≡ w * h) × (tw * th ≤ length out.old) }
    ensures { out.new ≡ put out.old 0 (scaled_of bytes.now w h tw th) }
{
    if tw != w || th != h {
        resize::resize_bilinear(bytes, w, h, tw, th, out);
    } else {
        gray_u8_to_f32(bytes, out);
    }
}

// The image j of the work becomes the frame as f32, resized if a side changes.
fn load_image(work: &mut [f32], j: usize, bytes: &[u8], w: usize, h: usize, tw: usize, th: usize)
    requires { InRange w h × InRange tw th × (length bytes.now ≡ w * h) × (j * (tw * th) + tw * th ≤ length work.old) }
    ensures { work.new ≡ set_image (tw * th) j (scaled_of bytes.now w h tw th) work.old }
{
    let at = j * (tw * th);
    load(bytes, w, h, tw, th, &mut work[at..]);
}

// The image j of the work, blurred: its pass along the rows in the image j + 1, the blurred image in j + 2.
fn blur_image(work: &mut [f32], j: usize, w: usize, h: usize, ksize: usize)
    requires { InRange w h × (3 ≤ ksize) × OddFilter ksize × (j * (w * h) + 3 * (w * h) ≤ length work.old) }
    ensures { work.new ≡
        set_image (w * h) (j + 2) (columns_of ksize w h (rows_of ksize w h (image (w * h) j work.old)))
        (set_image (w * h) (j + 1) (rows_of ksize w h (image (w * h) j work.old)) work.old) }
{
    let at = j * (w * h);
    blur::gaussian_blur_separable(&mut work[at..], w, h, ksize);
}

// The image j + 2 of the work becomes the prepared frame.
pub fn prepare(
    work: &mut [f32],
    j: usize,
    bytes: &[u8],
    w: usize,
    h: usize,
    tw: usize,
    th: usize,
    ksize: usize,
)
    requires { InRange w h × InRange tw th × (length bytes.now ≡ w * h) × (j ≤ 9) × (12 * (tw * th) ≤ length work.old) × OddFilter ksize }
    ensures { work.new ≡ prepared_in j bytes.now w h tw th ksize work.old }
{
    if ksize == 1 {
        load_image(work, j + 2, bytes, w, h, tw, th);
        return;
    }
    load_image(work, j, bytes, w, h, tw, th);
    blur_image(work, j, tw, th, ksize);
}
