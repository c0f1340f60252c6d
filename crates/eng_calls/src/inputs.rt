//! What a drawing call is handed.

ghost use Rattle.std.specs.Prelude.{◌≡◌, Some};
ghost use Rattle.copy_port.specs.Given.{given_blt, given_copy, given_paint};
ghost use Rattle.eng_calls.specs.Inputs.{given_of};

use brush_obj::BrushObj;
use pix_format::{ColourTable, XlateObj};
use surf_obj::LentView;

/// What a drawing call is handed: views of its source and its mask, the translation from the source to the target, the target's
/// table, and a brush. A call looks at what its kind needs.
#[derive(Clone, Copy)]
pub struct Inputs<'s, 'a> {
    pub source: Option<&'s LentView<'s>>,
    pub mask: Option<&'a LentView<'a>>,
    pub xlate: Option<&'a XlateObj>,
    pub table: &'a ColourTable,
    pub brush: Option<&'a BrushObj>,
}

impl<'s, 'a> Inputs<'s, 'a> {
    /// What a raster operation is handed.
    pub fn blt(
        source: Option<&'s LentView<'s>>,
        mask: Option<&'a LentView<'a>>,
        xlate: &'a XlateObj,
        table: &'a ColourTable,
        brush: &'a BrushObj,
    ) -> Inputs<'s, 'a>
        ensures { given_of result ≡ given_blt source.entry mask.entry xlate.now table.now brush.now.face }
    {
        Inputs {
            source,
            mask,
            xlate: Some(xlate),
            table,
            brush: Some(brush),
        }
    }

    /// The same with another source.
    pub(crate) fn with_source<'v>(&self, source: &'v LentView<'v>) -> Inputs<'v, 'a>
        ensures source { result.source ≡ Some source.entry }
        ensures mask { result.mask ≡ self.now.mask }
        ensures xlate { result.xlate ≡ self.now.xlate }
        ensures table { result.table ≡ self.now.table }
        ensures brush { result.brush ≡ self.now.brush }
    {
        Inputs {
            source: Some(source),
            mask: self.mask,
            xlate: self.xlate,
            table: self.table,
            brush: self.brush,
        }
    }

    /// What a copy is handed.
    pub fn copy(
        source: Option<&'s LentView<'s>>,
        xlate: &'a XlateObj,
        table: &'a ColourTable,
    ) -> Inputs<'s, 'a>
        ensures { given_of result ≡ given_copy source.entry xlate.now table.now }
    {
        Inputs {
            source,
            mask: None,
            xlate: Some(xlate),
            table,
            brush: None,
        }
    }

    /// What a paint is handed.
    pub fn paint(table: &'a ColourTable, brush: &'a BrushObj) -> Inputs<'s, 'a>
        ensures { given_of result ≡ given_paint table.now brush.now.face }
    {
        Inputs {
            source: None,
            mask: None,
            xlate: None,
            table,
            brush: Some(brush),
        }
    }
}
