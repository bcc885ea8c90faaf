// A line: for each coded place 'not sent', or a burst place and whether the bit is turned over there.
ghost use Rattle.std.specs.Prelude.{◌≡◌, ℕ, ◌<◌, ◌≤◌, Bool, Some, None, Option};

pub trait Line: Sized + Copy {
    // The numbers of coded bits and of burst bits, and whether the lengths suit the line.
    ghost coded: { Self → ℕ };

    ghost sent: { Self → ℕ };

    ghost suited: { Self → Bool };

    ghost place: { Self → ℕ → Option (ℕ × Bool) };

    fn coded_bits(&self) -> usize
        ensures { result ≡ coded self.now };

    fn burst_bits(&self) -> usize
        ensures { result ≡ sent self.now };

    fn suits(&self) -> bool
        ensures { result ≡ suited self.now };

    // A pair: whether the bit is turned tells nothing of whether it is sent.
    fn place_of(&self, j: usize) -> Option<(usize, bool)>
        ensures { result ≡ place self.now j };

    // Law 1: every burst place answered is one of the burst's.
    ghost within: { (l : Self) (j k : ℕ) (t : Bool) → place l j ≡ Some (k, t) → k < sent l };

    // Law 2: no two coded places share a burst place.
    ghost apart: { (l : Self) (i j k : ℕ) (t u : Bool) → place l i ≡ Some (k, t) → place l j ≡ Some (k, u) → i ≡ j };

    // Law 3: every burst place belongs to some coded place.
    ghost filled: { (l : Self) (k : ℕ) → k < sent l → (j : ℕ) × (t : Bool) × (place l j ≡ Some (k, t)) };

    // Nothing is sent from the number of coded bits on.
    ghost ended: { (l : Self) (j : ℕ) → coded l ≤ j → place l j ≡ None };
}
