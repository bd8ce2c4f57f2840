// The inf-norm factor of one row, iterated and one-pass: the size of an entry, the larger of two sizes, and the new
// factor that a maximum gives.
#![tactic(auto)]

ghost use Rattle.std.specs.Prelude.{◌≡◌, true};
ghost use Rattle.std.specs.Float.Ieee.{lt};
ghost use Rattle.float64.specs.Constants as Constants;
ghost use Rattle.infnorm_factors.specs.Maxima as Maxima;
ghost use Rattle.infnorm_factors.specs.Factors as Factors;

// The larger of two sizes; a NaN is never the larger one. `f64::max` differs: it gives the new size for an old NaN.
pub fn larger(old: f64, new: f64) -> f64
    ensures { result ≡ Maxima.larger old new }
{
    if new > old { new } else { old }
}

// The size of a value between the factors of its row and its column. A zero of either sign raises no maximum.
pub fn scaled_size(di: f64, value: f64, dj: f64) -> f64
    ensures { result ≡ Factors.scaled_size di value dj }
{
    float64::size_of(di * value * dj)
}

// A new factor that is not finite or not positive is not taken.
fn guarded(new: f64, old: f64) -> f64
    ensures { result ≡ Factors.guarded new old }
{
    let fine = float64::is_finite(new);
    if fine & (new > 0.0) { new } else { old }
}

// One step d / sqrt(m) by the root of m, guarded against what is no factor; a row of zeros keeps its factor. The step
// is made before the test, so that a block needs no branch.
pub fn new_factor(d: f64, m: f64, root: f64) -> f64
    requires { lt Constants.zero m ≡ true → root ≡ Factors.root m }
    ensures { result ≡ Factors.new_factor d m }
{
    let new = guarded(d / root, d);
    if m > 0.0 { new } else { d }
}

// The one-pass factor 1 / sqrt(m) by the root of m; a row of zeros has 1.0.
pub fn inv_sqrt_scale_guarded(m: f64, root: f64) -> f64
    requires { lt Constants.zero m ≡ true → root ≡ Factors.root m }
    ensures { result ≡ Factors.inv_sqrt_scale_guarded m }
{
    let new = guarded(1.0 / root, 1.0);
    if m > 0.0 { new } else { 1.0 }
}
