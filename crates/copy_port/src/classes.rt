//! What calls ask of a device.

ghost use Rattle.std.specs.Prelude.{◌≡◌};
ghost use Rattle.copy_port.specs.Classes.{bit_of_class, class_of, class_of_blt, class_of_fill, class_of_source, has_class};

use bitflags::{Flag, Flags, bitflag_items};
use brush_obj::{BltCall, DrawCall};
use geom_base::Target;
use rop_mix::{needs_mask, needs_pattern, needs_source};

/// What a call asks of a device.
#[derive(Clone, Copy, Debug, PartialEq, Eq)]
pub enum Class {
    Mask,
    Fill,
    Pattern,
    Other,
    Shift,
    Copy,
    Stretch,
    Gradient,
    Line,
    Text,
}

/// Some of the classes.
#[derive(Clone, Copy, Debug, PartialEq, Eq)]
pub struct Classes(u16);

bitflag_items! {
    impl Classes: u16 {
        const MASK = 1;
        const FILL = 2;
        const PATTERN = 4;
        const OTHER = 8;
        const SHIFT = 16;
        const COPY = 32;
        const STRETCH = 64;
        const GRADIENT = 128;
        const LINE = 256;
        const TEXT = 512;
    }
}

impl Flags for Classes {
    type Bits = u16;

    ghost use Rattle.std.specs.Prelude.{⊤, [], ◌∷◌, codes};

    ghost exact = { ⊤ };

    ghost table = { (codes "MASK", 1) ∷ (codes "FILL", 2) ∷ (codes "PATTERN", 4) ∷ (codes "OTHER", 8) ∷ (codes "SHIFT", 16) ∷ (codes "COPY", 32)
        ∷ (codes "STRETCH", 64) ∷ (codes "GRADIENT", 128) ∷ (codes "LINE", 256) ∷ (codes "TEXT", 512) ∷ [] };

    ghost set_of = { λ c. c.0 };

    fn flags<'a>() -> &'a [Flag<Classes>] {
        Classes::FLAGS
    }

    fn bits(&self) -> u16 {
        self.0
    }

    fn from_bits_retain(bits: u16) -> Classes {
        Classes(bits)
    }
}

impl Class {
    /// The set of this class alone.
    fn alone(self) -> Classes
        ensures { result.0 ≡ bit_of_class self }
    {
        match self {
            Class::Mask => Classes::MASK,
            Class::Fill => Classes::FILL,
            Class::Pattern => Classes::PATTERN,
            Class::Other => Classes::OTHER,
            Class::Shift => Classes::SHIFT,
            Class::Copy => Classes::COPY,
            Class::Stretch => Classes::STRETCH,
            Class::Gradient => Classes::GRADIENT,
            Class::Line => Classes::LINE,
            Class::Text => Classes::TEXT,
        }
    }
}

impl Classes {
    /// Whether a class is one of them.
    pub fn has(self, class: Class) -> bool
        ensures { result ≡ has_class self class }
    {
        self.contains(class.alone())
    }
}

/// The class of a call; `solid` tells whether its brush is of one colour.
pub fn class_of(call: &DrawCall, solid: bool) -> Class
    ensures { result ≡ class_of call.now solid }
{
    match call {
        DrawCall::Blt(call) => class_of_blt(call, solid),
        DrawCall::Copy(call) => class_of_source(call.held),
        DrawCall::Paint(_) => fill(solid),
    }
}

/// The same of a raster operation.
pub fn class_of_blt(call: &BltCall, solid: bool) -> Class
    ensures { result ≡ class_of_blt call.now solid }
{
    if needs_mask(call.rop) {
        return Class::Mask;
    }
    if !needs_source(call.rop) {
        return fill(!needs_pattern(call.rop) || solid);
    }
    if needs_pattern(call.rop) {
        return Class::Other;
    }
    class_of_source(call.held)
}

/// The class of what is drawn without a source.
fn fill(solid: bool) -> Class
    ensures { result ≡ class_of_fill solid }
{
    if solid { Class::Fill } else { Class::Pattern }
}

/// The class of what is drawn from a source alone.
fn class_of_source(held: Option<Target>) -> Class
    ensures { result ≡ class_of_source held }
{
    match held {
        Some(_) => Class::Shift,
        None => Class::Copy,
    }
}
