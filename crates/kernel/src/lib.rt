// gaussian_kernel, for the odd sizes 3 to 31: the weights of a blur along a row.
//
// A place's weight is e^-a, where a grows with its distance from the middle. The front of the caller's array becomes the weights, in
// order, each over their sum; each operation is rounded once.
#![tactic(auto)]

ghost use Rattle.std.specs.Prelude.{◌≡◌, ◌%◌, ◌≤◌, ◌<◌, length, get_or};
ghost use Rattle.std.specs.Float.{nan};
ghost use Rattle.lists.specs.Lists.{tab, put};
ghost use Rattle.lists.specs.Premises.{OddFilter};
ghost use Rattle.floats.specs.F32.{◌⊗◌, ◌⊘◌, 2f};
ghost use Rattle.floats.specs.Sums.{sum_to};
ghost use Rattle.kernel.specs.Kernel.{sigma_of, off_of, weight_of, kernel_of};

// 2 * sigma * sigma.
fn spread(ksize: usize) -> f32
    requires { ksize ≤ 31 }
    ensures { result ≡ 2f ⊗ sigma_of ksize ⊗ sigma_of ksize }
{
    let sigma = 0.3 * ((numbers::to_f32(ksize) - 1.0) * 0.5 - 1.0) + 0.8;
    2.0 * sigma * sigma
}

// How far i is from the radius.
fn off(ksize: usize, i: usize) -> usize
    requires { (ksize ≤ 31) × (i < ksize) }
    ensures { (result ≡ off_of ksize i) × (result ≤ 15) }
{
    i.abs_diff(ksize / 2)
}

// The weight of the place i, before it is divided.
fn weight(ksize: usize, d: f32, i: usize) -> f32
    requires { (3 ≤ ksize) × OddFilter ksize × (i < ksize) × (d ≡ 2f ⊗ sigma_of ksize ⊗ sigma_of ksize) }
    ensures { result ≡ weight_of ksize i }
{
    let x = off(ksize, i);
    series::exp_neg(numbers::to_f32(x * x) / d)
}

// The front of `k` becomes the weights, before they are divided; the answer is their sum.
fn weights(ksize: usize, d: f32, k: &mut [f32]) -> f32
    requires { (3 ≤ ksize) × OddFilter ksize × (d ≡ 2f ⊗ sigma_of ksize ⊗ sigma_of ksize) × (ksize ≤ length k.old) }
    ensures { (result ≡ sum_to (weight_of ksize) ksize) × (k.new ≡ put k.old 0 (tab ksize (weight_of ksize))) }
{
    let mut sum = 0.0f32;
    for i in 0..ksize {
        let v = weight(ksize, d, i);
        k[i] = v;
        sum += v;
    }
    sum
}

// Each of the first n numbers of `k` over the sum.
fn divide(n: usize, sum: f32, k: &mut [f32])
    requires { n ≤ length k.old }
    ensures { k.new ≡ put k.old 0 (tab n (λ i. get_or k.old i nan ⊘ sum)) }
{
    for i in 0..n {
        k[i] /= sum;
    }
}

// The front of `k` becomes the kernel of an odd size.
pub fn gaussian_kernel(ksize: usize, k: &mut [f32])
    requires { (3 ≤ ksize) × OddFilter ksize × (ksize ≤ length k.old) }
    ensures { k.new ≡ put k.old 0 (kernel_of ksize) }
{
    let d = spread(ksize);
    let sum = weights(ksize, d, k);
    divide(ksize, sum, k);
}
