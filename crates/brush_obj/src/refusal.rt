//! Why there is no brush.

use geom_base::Size;
use std::alloc::AllocError;

/// Why a pattern cannot be a brush: a side of this size has over `MOST_PATTERN_SIDE` pixels; or memory is wanting.
#[derive(Clone, Copy, Debug, PartialEq, Eq)]
pub enum BrushRefusal {
    TooLarge(Size),
    NoMemory,
}

impl From<AllocError> for BrushRefusal {
    ghost use Rattle.std.specs.Prelude.{◌≡◌};
    ghost use Rattle.brush_obj.specs.declared.refusal.BrushRefusal.TheVariants.{NoMemory};

    ghost from_gives = { λ _ refusal. refusal ≡ NoMemory };

    fn from(_error: AllocError) -> BrushRefusal {
        BrushRefusal::NoMemory
    }
}
