// means_over_mask and centered_stats_in_place, over the marked pixels alone and divided by the marked count.
//
// The statistics are lent six images one after another: image 0 is the warped image, image 3 the template; they leave the centred
// template in image 4 and the centred image in image 5, at the marked pixels: nobody reads the others. Images 1 and 2 are not looked at.
// Both go through the pixels that all marks lie between, by stretches of marked pixels, in which no pixel is tested.
#![tactic(auto)]

ghost use Rattle.std.specs.Prelude.{◌≡◌, ◌+◌, ◌-◌, ◌*◌, ◌≤◌, length, get_or};
ghost use Rattle.std.specs.Float.{nan};
ghost use Rattle.lists.specs.Lists.{tab, put, image};
ghost use Rattle.lists.specs.Marked.{over_range, words_for};
ghost use Rattle.floats.specs.F32.{◌⊕◌, ◌⊖◌, ◌⊗◌};
ghost use Rattle.marks.specs.Marks.{count_on};
ghost use Rattle.bits.specs.Words.{unpacked_of};
ghost use Rattle.rows.specs.Between.{Between};
ghost use Rattle.stats.specs.Stats.{mean_of, Centred};

#[derive(Clone, Copy)]
pub struct Stats {
    pub tmp_norm: f32,
    pub img_norm: f32,
    pub corr: f32,
}

// Of the template and of the image: the sums, then the means.
#[derive(Clone, Copy)]
struct Means(f32, f32);

// t_ss, i_ss and corr: the sums of squares of the template and of the image, and of their products.
#[derive(Clone, Copy)]
struct Products(f32, f32, f32);

// The means of the template and the image over the marked pixels.
fn means_over_mask(
    part: &[f32],
    marks: &[u64],
    n: usize,
    from: usize,
    to: usize,
    found: usize,
) -> Means
    requires { (n ≤ 16777216) × (found ≡ count_on (unpacked_of marks.now n) n) × (6 * n ≤ length part.now) × (words_for n ≤ length marks.now)
        × Between (unpacked_of marks.now n) n from to }
    ensures { let ms = unpacked_of marks.now n in
        result ≡ (mean_of ms n (image n 3 part.now), mean_of ms n (image n 0 part.now)) }
{
    let none = Means(0.0, 0.0);
    let s = bits::fold_marked(marks, from, to, none, |s, i| {
        Means(s.0 + part[3 * n + i], s.1 + part[i])
    });
    let nf = numbers::to_f32(found);
    Means(s.0 / nf, s.1 / nf)
}

// A stretch of pixels, each of them marked, less the means; their products are added to those of the pixels before.
fn centred_stretch(
    part: &mut [f32],
    n: usize,
    from: usize,
    to: usize,
    mean: Means,
    before: Products,
) -> Products
    requires { (from ≤ to) × (to ≤ n) × (6 * n ≤ length part.old) }
    ensures part_after { let xs = part.old in
        part.new ≡ put (put xs (4 * n + from) (tab (to - from) (λ k. get_or xs (3 * n + (from + k)) nan ⊖ mean.0)))
        (5 * n + from) (tab (to - from) (λ k. get_or xs (from + k) nan ⊖ mean.1)) }
    ensures result_value { let xs = part.old in
        result ≡ over_range (λ s i.
        let t = get_or xs (3 * n + i) nan ⊖ mean.0 in
        let v = get_or xs i nan ⊖ mean.1 in
        (s.0 ⊕ t ⊗ t, s.1 ⊕ v ⊗ v, s.2 ⊕ t ⊗ v)) before from (to - from) }
{
    let t = 3 * n;
    let tz = 4 * n;
    let iz = 5 * n;
    let mut s = before;
    for i in from..to {
        let tv = part[t + i] - mean.0;
        let iv = part[i] - mean.1;
        part[tz + i] = tv;
        part[iz + i] = iv;
        s = Products(s.0 + tv * tv, s.1 + iv * iv, s.2 + tv * iv);
    }
    s
}

// `found` is how many of the first n marks are set; all lie from the pixel `from` on, before `to`.
pub fn centered_stats_in_place(
    part: &mut [f32],
    marks: &[u64],
    n: usize,
    from: usize,
    to: usize,
    found: usize,
) -> Stats
    requires { (n ≤ 16777216) × (found ≡ count_on (unpacked_of marks.now n) n) × (6 * n ≤ length part.old) × (words_for n ≤ length marks.now)
        × Between (unpacked_of marks.now n) n from to }
    ensures { Centred (unpacked_of marks.now n) n part.old part.new result }
{
    let mean = means_over_mask(part, marks, n, from, to, found);
    let mut s = Products(0.0, 0.0, 0.0);
    for r in bits::marked_stretches(marks, from, to) {
        s = centred_stretch(part, n, r.from, r.to, mean, s);
    }
    Stats {
        tmp_norm: root::sqrt(s.0),
        img_norm: root::sqrt(s.1),
        corr: s.2,
    }
}
