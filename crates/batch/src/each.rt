// A function of each element, and of each pair. The results are written place by place: once a zip of them is over, no
// proof knows what they hold. Callers pass closures, since a trait's function does not fit the bound by its name yet.
ghost use Rattle.std.specs.Prelude.{◌≡◌, ℕ, ◌<◌, length, map, slice_index_or};
ghost use Rattle.batch.specs.Batches.{Matched, zip_with};

pub fn each<A: Copy, C: Copy, M: Fn(A) -> C>(f: M, xs: &[A], out: &mut [C])
    requires callable { M.IsAlwaysCallable f }
    requires same { length xs.now ≡ length out.old }
    ensures { (g : A → C) → ((x : A) (r : C) → M.post f x r → r ≡ g x) → out.new ≡ map g xs.now }
{
    for (i, o) in out.iter_mut().enumerate() {
        *o = f(xs[i]);
    }
}

pub fn each_pair<A: Copy, B: Copy, C: Copy, M: Fn(A, B) -> C>(
    f: M,
    xs: &[A],
    ys: &[B],
    out: &mut [C],
)
    requires callable { (i : ℕ) (x : A) (y : B) → i < length out.old → M.pre f (slice_index_or xs.now i x) (slice_index_or ys.now i y) }
    requires same { Matched xs.now ys.now out.old }
    ensures { (g : A → B → C) → ((x : A) (y : B) (r : C) → M.post f x y r → r ≡ g x y) → out.new ≡ zip_with g xs.now ys.now }
{
    for (i, o) in out.iter_mut().enumerate() {
        *o = f(xs[i], ys[i]);
    }
}
