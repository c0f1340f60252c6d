//! Realised brushes.

ghost use Rattle.std.specs.Prelude.{◌≡◌, ◌≤◌, ◌+◌, ◌++◌, ◌∷◌, [], IfOk, length};
ghost use Rattle.brush_obj.specs.Image.{HasPatternSides};
ghost use Rattle.brush_obj.specs.Realised.{IsReadyFor};

use geom_base::Size;
use std::alloc::{AllocError, Global};
use std::marker::Model;

/// A realised brush: the values of the tile that a brush repeats, row by row, on one kind of surface. It is made with
/// room for all of them, and is filled by `put`.
#[derive(Drop)]
pub struct RBrush {
    size: Size,
    values: Vec<u32>,
}

impl Model for RBrush {
    ghost use Rattle.std.specs.Prelude.{◌-◌, vec_len};
    ghost use Rattle.std.specs.Vec.{vec_capacity};
    ghost use Rattle.brush_obj.specs.Image.{HasPatternSides};
    ghost use Rattle.brush_obj.specs.Realised.{Realised};

    ghost Value = { Realised };

    ghost view = { λ r. record { size = r.size; values = r.values.items; room = vec_capacity r.values - vec_len r.values } };

    ghost invariant = { λ r. HasPatternSides r.size };
}

impl RBrush {
    /// A realised brush of a size, without values, with room for all of them.
    ///
    /// # Errors
    ///
    /// `AllocError` for want of memory.
    pub(crate) fn with_room(alloc: Global, size: Size) -> Result<RBrush, AllocError>
        requires { HasPatternSides size }
        ensures { IfOk result (IsReadyFor size) }
    {
        let pixels = size.w as usize * size.h as usize;
        let values = Vec::with_capacity(alloc, pixels)?;
        Ok(RBrush { size, values })
    }

    /// Adds values, in their order.
    pub fn put_row(&mut self, values: &[u32])
        requires { length values.now ≤ self.old.room }
        ensures size { self.new.size ≡ self.old.size }
        ensures values { self.new.values ≡ self.old.values ++ values.now }
        ensures room { self.new.room + length values.now ≡ self.old.room }
    {
        for value in values {
            self.put(*value);
        }
    }

    /// Adds a value.
    pub fn put(&mut self, value: u32)
        requires { 1 ≤ self.old.room }
        ensures size { self.new.size ≡ self.old.size }
        ensures values { self.new.values ≡ self.old.values ++ value ∷ [] }
        ensures room { self.new.room + 1 ≡ self.old.room }
    {
        self.values.push_reserved(value);
    }

    /// Its width and height.
    pub fn size(&self) -> Size
        ensures size { result ≡ self.now.size }
        ensures sides { HasPatternSides result }
    {
        self.size
    }

    /// Its values so far, row by row.
    pub fn values(&self) -> &[u32]
        ensures { result.now ≡ self.now.values }
    {
        self.values.as_slice()
    }
}
