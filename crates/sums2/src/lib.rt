// The sums of the second half of a pass of the rail: those of crate sums with the entries of theta struck out, so that no j0 is needed.
//
// It is lent five images one after another, and only reads them: 0 and 1 the warped gradients, which are j, 3 and 4 the centred template and
// image. Image 2 is not looked at. The sums keep the order of the pixels, walk the pixels that all marks lie between, and go by stretches of
// marked ones, in which no pixel is tested.
//
// h[0][1] and h[1][0] are the same sum, so that seven numbers are added up before lambda is known. Seven fit in variables, by the fold that
// `errors` takes too; the sixteen of crate sums want a form of their own (docs/SPEED.md), so `project` stands in both.
#![tactic(auto)]

ghost use Rattle.std.specs.Prelude.{◌≡◌, ◌*◌, ◌≤◌, length};
ghost use Rattle.lists.specs.Lists.{image};
ghost use Rattle.lists.specs.Marked.{words_for};
ghost use Rattle.bits.specs.Words.{unpacked_of};
ghost use Rattle.rows.specs.Between.{Between};
ghost use Rattle.sums.specs.Sums.{error_of};
ghost use Rattle.sums2.specs.Steps.{seven_more};
ghost use Rattle.sums2.specs.Sums.{proj2_of, hessian2_of};

use inverse2::{Matrix2, Vector2};

// The sums so far: of gx and of gy with the image, then with the template; then of gx * gx, gx * gy and gy * gy.
#[derive(Clone, Copy)]
struct Seven(f32, f32, f32, f32, f32, f32, f32);

// What is summed over the marked pixels before lambda is known.
#[derive(Clone, Copy)]
pub struct Sums2 {
    pub h: Matrix2,
    pub image_proj: Vector2,
    pub template_proj: Vector2,
}

// A pixel's products added: gx, gy and the pixels of image and template.
fn add_products(s: Seven, gx: f32, gy: f32, i: f32, t: f32) -> Seven
    ensures { result ≡ seven_more s gx gy i t }
{
    Seven(
        s.0 + gx * i,
        s.1 + gy * i,
        s.2 + gx * t,
        s.3 + gy * t,
        s.4 + gx * gx,
        s.5 + gx * gy,
        s.6 + gy * gy,
    )
}

// h, image_proj and template_proj. All marks lie from the pixel `from` on, before `to`.
pub fn project(part: &[f32], marks: &[u64], n: usize, from: usize, to: usize) -> Sums2
    requires { (n ≤ 16777216) × (5 * n ≤ length part.now) × (words_for n ≤ length marks.now) × Between (unpacked_of marks.now n) n from to }
    ensures { let ms = unpacked_of marks.now n in let xs = part.now in
        (result.h ≡ hessian2_of ms n (image n 0 xs) (image n 1 xs))
        × (result.image_proj ≡ proj2_of ms n (image n 0 xs) (image n 1 xs) (image n 4 xs))
        × (result.template_proj ≡ proj2_of ms n (image n 0 xs) (image n 1 xs) (image n 3 xs)) }
{
    let none = Seven(0.0, 0.0, 0.0, 0.0, 0.0, 0.0, 0.0);
    let s = bits::fold_marked(marks, from, to, none, |s, i| {
        add_products(s, part[i], part[n + i], part[4 * n + i], part[3 * n + i])
    });
    Sums2 {
        h: Matrix2 {
            m00: s.4,
            m01: s.5,
            m10: s.5,
            m11: s.6,
        },
        image_proj: Vector2(s.0, s.1),
        template_proj: Vector2(s.2, s.3),
    }
}

// error_proj: the sums of j with e = lambda * template_zm - image_zm. All marks lie from the pixel `from` on, before `to`.
pub fn errors(part: &[f32], marks: &[u64], n: usize, from: usize, to: usize, lambda: f32) -> Vector2
    requires { (n ≤ 16777216) × (5 * n ≤ length part.now) × (words_for n ≤ length marks.now) × Between (unpacked_of marks.now n) n from to }
    ensures { let ms = unpacked_of marks.now n in let xs = part.now in
        result ≡ proj2_of ms n (image n 0 xs) (image n 1 xs) (error_of n lambda (image n 3 xs) (image n 4 xs)) }
{
    let none = Vector2(0.0, 0.0);
    bits::fold_marked(marks, from, to, none, |ep, i| {
        let e = lambda * part[3 * n + i] - part[4 * n + i];
        Vector2(ep.0 + part[i] * e, ep.1 + part[n + i] * e)
    })
}
