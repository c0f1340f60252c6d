//! Copies of bytes.

ghost use Rattle.std.specs.Prelude.{◌≡◌, ◌≤◌, ◌<◌, ◌+◌, ℕ, length, slice_index};
ghost use Rattle.surf_obj.specs.InnerBytes.{ChangesOnly};

/// Copies so many bytes from elsewhere.
pub fn copy_bytes(bits: &mut [u8], at: usize, source: &[u8], first: usize, len: usize)
    requires room { at + len ≤ length bits.old }
    requires there { first + len ≤ length source.now }
    ensures values { (k : ℕ) → k < len → slice_index bits.new (at + k) ≡ slice_index source.now (first + k) }
    ensures bytes { ChangesOnly at (at + len) bits.old bits.new }
{
    bits[at..at + len].copy_from_slice(&source[first..first + len]);
}

/// Copies so many bytes to others among them, all at once.
pub fn move_bytes(bits: &mut [u8], at: usize, first: usize, len: usize)
    requires room { at + len ≤ length bits.old }
    requires there { first + len ≤ length bits.old }
    ensures values { (k : ℕ) → k < len → slice_index bits.new (at + k) ≡ slice_index bits.old (first + k) }
    ensures items { (k : ℕ) → slice_index bits.old k < 256 }
    ensures bytes { ChangesOnly at (at + len) bits.old bits.new }
{
    bits.copy_within(first..first + len, at);
}
