//! Any drawing call.

ghost use Rattle.std.specs.Prelude.{◌≡◌, IsTrue, false};
ghost use Rattle.brush_obj.specs.Calls.{CallsLend, CallsMove};

use crate::blt_call::BltCall;
use crate::copy_call::{CopyCall, SOURCE_ALONE, ZERO};
use crate::paint_call::PaintCall;
use crate::shifting::shifted_back;
use geom_base::{Point, Rect, Target};
use rop_mix::needs_source;

/// One call that draws on a surface.
#[derive(Clone, Copy, Debug, PartialEq, Eq)]
pub enum DrawCall {
    Blt(BltCall),
    Copy(CopyCall),
    Paint(PaintCall),
}

impl DrawCall {
    ghost use Rattle.brush_obj.specs.Calls.{CallMoves, CopiesSource, IgnoresTarget, PointMovesBack, held_of, lent_call, moved_call, reads_source, rect_of, src_of, target_of};

    /// The target that it draws on.
    pub fn target(&self) -> Target
        ensures { result ≡ target_of self.now }
    {
        match self {
            DrawCall::Blt(call) => call.target,
            DrawCall::Copy(call) => call.target,
            DrawCall::Paint(call) => call.target,
        }
    }

    /// The target that it holds as its source.
    pub fn held(&self) -> Option<Target>
        ensures { result ≡ held_of self.now }
    {
        match self {
            DrawCall::Blt(call) => call.held,
            DrawCall::Copy(call) => call.held,
            DrawCall::Paint(_) => None,
        }
    }

    /// The call on a target whose points are moved.
    pub fn shifted(&self, by: Point) -> DrawCall
        requires { CallMoves self.now by }
        ensures { result ≡ moved_call self.now by }
    {
        match self {
            DrawCall::Blt(call) => DrawCall::Blt(call.shifted(by)),
            DrawCall::Copy(call) => DrawCall::Copy(call.shifted(by)),
            DrawCall::Paint(call) => DrawCall::Paint(call.shifted(by)),
        }
    }

    /// Whether it reads its source.
    pub fn reads_source(&self) -> bool
        ensures { result ≡ reads_source self.now }
    {
        match self {
            DrawCall::Blt(call) => needs_source(call.rop),
            DrawCall::Copy(_) => true,
            DrawCall::Paint(_) => false,
        }
    }

    /// Whether what a point gets may depend on what it had, though the call finds its source: where the old value counts, or a
    /// point of the mask may be wanting.
    pub fn reads_target(&self) -> bool
        ensures { result ≡ false → IgnoresTarget self.now }
    {
        match self {
            DrawCall::Blt(call) => call.reads_target(),
            DrawCall::Copy(call) => call.as_blt().reads_target(),
            DrawCall::Paint(call) => call.reads_target(),
        }
    }

    /// Whether it gives each point that has a source the source's value.
    pub fn copies_source(&self) -> bool
        ensures gives { IsTrue result → CopiesSource self.now }
        ensures reads { IsTrue result → IsTrue (reads_source self.now) }
    {
        match self {
            DrawCall::Blt(call) => call.rop.code == SOURCE_ALONE,
            _ => matches!(self, DrawCall::Copy(_)),
        }
    }

    /// The source's point for the corner of its rectangle; 0 0 where it has no source.
    pub fn src(&self) -> Point
        ensures { result ≡ src_of self.now }
    {
        match self {
            DrawCall::Blt(call) => call.src,
            DrawCall::Copy(call) => call.src,
            DrawCall::Paint(_) => ZERO,
        }
    }

    /// The call with a source that is lent, and begins at a point of what was its source.
    pub fn lent_from(&self, at: Point) -> DrawCall
        requires { PointMovesBack (src_of self.now) at }
        ensures { result ≡ lent_call self.now at }
    {
        match self {
            DrawCall::Blt(call) => DrawCall::Blt(BltCall {
                held: None,
                src: shifted_back(call.src, at),
                ..*call
            }),
            DrawCall::Copy(call) => DrawCall::Copy(CopyCall {
                held: None,
                src: shifted_back(call.src, at),
                ..*call
            }),
            DrawCall::Paint(call) => DrawCall::Paint(*call),
        }
    }

    /// The rectangle whose points it reaches.
    pub fn rect(&self) -> Rect
        ensures { result ≡ rect_of self.now }
    {
        match self {
            DrawCall::Blt(call) => call.rect,
            DrawCall::Copy(call) => call.rect,
            DrawCall::Paint(call) => call.rect,
        }
    }
}

/// A call that is moved with its target gives each moved point what it gave the point, and one whose source is lent from a point on gives
/// each point the same.
pub fn calls_move()
    ensures moved { CallsMove }
    ensures lent { CallsLend }
{}
