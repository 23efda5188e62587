// The search by halves, for whatever is found by its number.
#![tactic(auto)]

ghost use Rattle.std.specs.Prelude.{ℕ, Bool, ◌≤◌, ◌<◌};
ghost use Rattle.halving.specs.Halving.{Tests, Parts, PointOf};

// The first of the numbers from `from` on and below `upto` at which a test no longer holds, or `upto`.
pub fn partition_point<F: Fn(usize) -> bool>(from: usize, upto: usize, before: F) -> usize
    requires order { from ≤ upto }
    requires callable { (i : ℕ) → from ≤ i → i < upto → F.pre before i }
    ensures within { (from ≤ result) × (result ≤ upto) }
    ensures point { (p : ℕ → Bool) → Tests F.post before from upto p → Parts from upto p → PointOf from upto p result }
{
    let mut lo = from;
    let mut hi = upto;
    while lo < hi {
        let mid = lo + (hi - lo) / 2;
        if before(mid) {
            lo = mid + 1;
        } else {
            hi = mid;
        }
    }
    lo
}
