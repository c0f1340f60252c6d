//! What is left of a set along a sweep.

ghost use Rattle.std.specs.Prelude.{◌≡◌, ◌<◌, ◌≤◌, ℕ, ℤ, ◌≤ℤ◌, Bool, Option, Some, option_map, true, false, if◌then◌else◌};
ghost use Rattle.region.specs.InnerCursor.{StaysUntil};

/// What is left of a set from a place on.
pub trait Cursor: Drop {
    /// whether a column of a place is in what is left
    ghost set: { Self → ℤ → ℤ → Bool };

    /// whether a column is in the set at the place
    ghost now: { Self → ℤ → Bool };

    /// it is at a place
    ghost is_at: { ℤ → Self → Type 0 };

    /// the next place where the set may change
    ghost next_of: { Self → Option ℤ };

    /// how many changes are left at most
    ghost left: { Self → ℕ };

    /// Whether all columns are in the set at the place or none is, if one of the two is known to be so.
    fn uniform(&self) -> Option<bool>
        ensures { (b : Bool) → result ≡ Some b → (x : ℤ) → now self.now x ≡ b };

    /// The next place where the set may change; without one, nothing is left.
    fn next(&self) -> Option<i32>
        ensures place { result ≡ next_of self.now }
        ensures stays { (y : ℤ) → is_at y self.now → StaysUntil (set self.now) (now self.now) y result };

    /// Goes on to a place.
    fn go_to(&mut self, place: &i32)
        requires { (y : ℤ) × is_at y self.old × (y ≤ℤ place.now) }
        ensures at { is_at place.now self.new }
        ensures rest { (z x : ℤ) → place.now ≤ℤ z → set self.new z x ≡ set self.old z x }
        ensures fewer { left self.new ≤ left self.old }
        ensures less { (n : ℤ) → next_of self.old ≡ Some n → n ≤ℤ place.now → left self.new < left self.old };
}
