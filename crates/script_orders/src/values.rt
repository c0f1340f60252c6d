//! Lists of pixel values.

ghost use Rattle.std.specs.Prelude.{◌≡◌};

use std::marker::Model;

/// Pixel values in order.
#[derive(Drop)]
pub struct Values {
    items: Vec<u32>,
}

impl Model for Values {
    ghost use Rattle.std.specs.Prelude.{ℕ, List};

    ghost Value = { List ℕ };

    ghost view = { λ v. v.items.items };
}

impl Values {
    /// These values.
    pub fn of(items: Vec<u32>) -> Values
        ensures { result ≡ items.items }
    {
        Values { items }
    }

    /// The values, in order.
    pub fn items(&self) -> &[u32]
        ensures { result.now ≡ self.now }
    {
        self.items.as_slice()
    }
}
