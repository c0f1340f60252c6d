//! The calls that a driver can hook.

ghost use Rattle.std.specs.Prelude.{◌≡◌};
ghost use Rattle.copy_port.specs.Classes.{bit_of_hook, has_hook, hook_of};

use bitflags::{Flag, Flags, bitflag_items};
use brush_obj::DrawCall;

/// A drawing call of a driver.
#[derive(Clone, Copy, Debug, PartialEq, Eq)]
pub enum Hook {
    BitBlt,
    CopyBits,
    Paint,
    StretchBlt,
    TransparentBlt,
    GradientFill,
    LineTo,
    StrokePath,
    TextOut,
}

/// Some of the drawing calls.
#[derive(Clone, Copy, Debug, PartialEq, Eq)]
pub struct Hooks(u16);

bitflag_items! {
    impl Hooks: u16 {
        const BIT_BLT = 1;
        const COPY_BITS = 2;
        const PAINT = 4;
        const STRETCH_BLT = 8;
        const TRANSPARENT_BLT = 16;
        const GRADIENT_FILL = 32;
        const LINE_TO = 64;
        const STROKE_PATH = 128;
        const TEXT_OUT = 256;
    }
}

impl Flags for Hooks {
    type Bits = u16;

    ghost use Rattle.std.specs.Prelude.{⊤, [], ◌∷◌, codes};

    ghost exact = { ⊤ };

    ghost table = { (codes "BIT_BLT", 1) ∷ (codes "COPY_BITS", 2) ∷ (codes "PAINT", 4) ∷ (codes "STRETCH_BLT", 8) ∷ (codes "TRANSPARENT_BLT", 16)
        ∷ (codes "GRADIENT_FILL", 32) ∷ (codes "LINE_TO", 64) ∷ (codes "STROKE_PATH", 128) ∷ (codes "TEXT_OUT", 256) ∷ [] };

    ghost set_of = { λ h. h.0 };

    fn flags<'a>() -> &'a [Flag<Hooks>] {
        Hooks::FLAGS
    }

    fn bits(&self) -> u16 {
        self.0
    }

    fn from_bits_retain(bits: u16) -> Hooks {
        Hooks(bits)
    }
}

impl Hook {
    /// The set of this call alone.
    fn alone(self) -> Hooks
        ensures { result.0 ≡ bit_of_hook self }
    {
        match self {
            Hook::BitBlt => Hooks::BIT_BLT,
            Hook::CopyBits => Hooks::COPY_BITS,
            Hook::Paint => Hooks::PAINT,
            Hook::StretchBlt => Hooks::STRETCH_BLT,
            Hook::TransparentBlt => Hooks::TRANSPARENT_BLT,
            Hook::GradientFill => Hooks::GRADIENT_FILL,
            Hook::LineTo => Hooks::LINE_TO,
            Hook::StrokePath => Hooks::STROKE_PATH,
            Hook::TextOut => Hooks::TEXT_OUT,
        }
    }
}

impl Hooks {
    /// Whether a call is one of them.
    pub fn has(self, hook: Hook) -> bool
        ensures { result ≡ has_hook self hook }
    {
        self.contains(hook.alone())
    }
}

/// The hook of a call.
pub fn hook_of(call: &DrawCall) -> Hook
    ensures { result ≡ hook_of call.now }
{
    match call {
        DrawCall::Blt(_) => Hook::BitBlt,
        DrawCall::Copy(_) => Hook::CopyBits,
        DrawCall::Paint(_) => Hook::Paint,
    }
}
