//! A surface that owns its bits.

ghost use Rattle.std.specs.Prelude.{◌≡◌, ◌*◌, vec_len, length, IfOk, replicate};
ghost use Rattle.std.specs.Borrow.{sem};
ghost use Rattle.geom_base.specs.Points.{HasSides};
ghost use Rattle.surf_obj.specs.Layout.{Holds};

use crate::layout::Layout;
use crate::lent::LentSurf;
use crate::view::LentView;
use geom_base::Size;
use pix_format::Format;
use std::alloc::{AllocError, Global};

/// A surface that owns its bits.
#[derive(Drop)]
pub struct SurfObj {
    bits: Vec<u8>,
    layout: Layout,
    ghost holds: { Holds layout (vec_len bits) },
}

impl SurfObj {
    ghost use Rattle.surf_obj.specs.Object.{IsBlank, object_layout, object_size, object_format, object_bytes};
    ghost use Rattle.surf_obj.specs.Lent.{bytes_of, layout_of};
    ghost use Rattle.surf_obj.specs.View.{view_bytes, view_layout};
    ghost use Rattle.surf_obj.specs.Lending.{LendsBytes, LendsSurface};

    /// A surface of a size and a format, all of whose values are 0: the top row first, each row padded to four bytes.
    pub fn new(alloc: Global, size: Size, format: Format) -> Result<SurfObj, AllocError>
        requires { HasSides size }
        ensures { IfOk result (IsBlank size format) }
    {
        let layout = Layout::padded(size, format);
        let bits = zeros(alloc, layout.len())?;
        Ok(SurfObj { bits, layout })
    }

    /// Its width and height.
    pub fn size(&self) -> Size
        ensures size { result ≡ object_size self.now }
        ensures sides { HasSides result }
    {
        self.layout.size
    }

    /// How its pixels are kept.
    pub fn format(&self) -> Format
        ensures { result ≡ object_format self.now }
    {
        self.layout.format
    }

    /// Where its pixels lie in its bytes.
    pub fn layout(&self) -> Layout
        ensures layout { result ≡ object_layout self.now }
        ensures holds { Holds result (length (object_bytes self.now)) }
    {
        self.layout
    }

    /// Its bytes.
    pub fn bits(&self) -> &[u8]
        ensures { result.now ≡ object_bytes self.now }
    {
        self.bits.as_slice()
    }

    /// Its bytes, to be written.
    pub fn bits_mut(&mut self) -> &mut [u8]
        ensures* writes_back { sem 𝓛 (LendsBytes self.entry result) }
        ensures bits { result.now ≡ object_bytes self.old }
    {
        self.bits.as_mut_slice()
    }

    /// The surface, to be drawn on.
    pub fn lend(&mut self) -> LentSurf<'_>
        ensures* writes_back { sem 𝓛 (LendsSurface self.entry result) }
        ensures bits { bytes_of result ≡ object_bytes self.old }
        ensures layout { layout_of result ≡ object_layout self.old }
    {
        let layout = self.layout;
        LentSurf::on(self.bits.as_mut_slice(), layout)
    }

    /// The surface, to be read.
    pub fn view(&self) -> LentView<'_>
        ensures bits { view_bytes result ≡ object_bytes self.now }
        ensures layout { view_layout result ≡ object_layout self.now }
    {
        LentView::on(self.bits.as_slice(), self.layout)
    }
}

/// So many bytes of 0.
fn zeros(alloc: Global, len: usize) -> Result<Vec<u8>, AllocError>
    ensures items { IfOk result (λ v. v.items ≡ replicate len 0) }
    ensures len { IfOk result (λ v. vec_len v ≡ len) }
{
    vec![in alloc; 0u8; len]
}
