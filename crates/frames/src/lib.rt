// Both frames made ready in the work: the prepared template in image 8, the prepared input in image 2, its gradients in 3 and 4. What lies
// past the twelve images stays as it was.
#![tactic(auto)]

ghost use Rattle.std.specs.Prelude.{◌≡◌, ◌*◌, ◌%◌, ◌≤◌, length};
ghost use Rattle.lists.specs.Lists.{image, set_image};
ghost use Rattle.lists.specs.Premises.{InRange, OddFilter};
ghost use Rattle.gradients.specs.Gradients.{gradient_x, gradient_y};
ghost use Rattle.frames.specs.Ready.{Ready};

// The gradient in x of image 2, in image 3.
fn add_gradient_x(work: &mut [f32], w: usize, h: usize)
    requires { InRange w h × (12 * (w * h) ≤ length work.old) }
    ensures { work.new ≡ set_image (w * h) 3 (gradient_x w h (image (w * h) 2 work.old)) work.old }
{
    let n = w * h;
    gradients::gradient_x(&mut work[2 * n..], w, h);
}

// The gradient in y of image 2, in image 4.
fn add_gradient_y(work: &mut [f32], w: usize, h: usize)
    requires { InRange w h × (12 * (w * h) ≤ length work.old) }
    ensures { work.new ≡ set_image (w * h) 4 (gradient_y w h (image (w * h) 2 work.old)) work.old }
{
    let n = w * h;
    gradients::gradient_y(&mut work[2 * n..], w, h);
}

// Frames of w by h, prepared at tw by th.
pub fn make_ready(
    work: &mut [f32],
    template: &[u8],
    input: &[u8],
    w: usize,
    h: usize,
    tw: usize,
    th: usize,
    ksize: usize,
)
    requires { InRange w h × InRange tw th × (length template.now ≡ w * h) × (length input.now ≡ w * h)
        × (12 * (tw * th) ≤ length work.old) × OddFilter ksize }
    ensures { Ready template.now input.now w h tw th ksize work.old work.new }
{
    prepare::prepare(work, 6, template, w, h, tw, th, ksize);
    prepare::prepare(work, 0, input, w, h, tw, th, ksize);
    add_gradient_x(work, tw, th);
    add_gradient_y(work, tw, th);
}
