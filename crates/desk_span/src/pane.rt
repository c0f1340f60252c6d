//! Pixels in memory, with the colours that their values stand for.

ghost use Rattle.std.specs.Prelude.{◌≡◌, ◌<◌, ◌≤◌, ◌*◌, ◌^◌, [], All, length, option_map, IfOk, OnOk, OnErr, unwrap_or};
ghost use Rattle.std.specs.Option.{option_copied};
ghost use Rattle.geom_base.specs.Points.{HasSides, is_in_some, LiesIn, most_side};
ghost use Rattle.pix_format.specs.Value.{bits_of, colours_of};
ghost use Rattle.surf_obj.specs.Object.{object_format};
ghost use Rattle.surf_obj.specs.Surface.{changed};
ghost use Rattle.surf_obj.specs.View.{view_size, view_format, view_values};
ghost use Rattle.brush_obj.specs.Image.{most_pattern_side};
ghost use Rattle.brush_obj.specs.Calls.{HoldsOwn, held_of, new_of_call, target_of};
ghost use Rattle.brush_obj.specs.declared.face.BrushFace.TheVariants as faces;
ghost use Rattle.script_orders.specs.Asked.{IsSurfaceSize};
ghost use Rattle.desk_span.specs.Desk.{blank, image_of, row_like, translation};
ghost use Rattle.desk_span.specs.InnerDrawing.{seen_of, seen_of_view, operands_with, translation_for};
ghost use Rattle.desk_span.specs.InnerPane.{shown_in};

use crate::inputs::PaneInputs;
use crate::row::put_values;
use brush_obj::{BrushObj, BrushRefusal, DrawCall};
use clip_obj::ClipObj;
use eng_calls::{Inputs, eng_draw};
use geom_base::Size;
use pix_format::{ColourTable, Format, Rgb, XlateObj};
use std::alloc::{AllocError, Global};
use std::marker::Model;
use surf_obj::{LentView, SurfObj};

/// Pixels in memory, and the colours that their values stand for.
#[derive(Drop)]
pub struct Pane {
    pixels: SurfObj,
    table: ColourTable,
}

impl Model for Pane {
    ghost use Rattle.std.specs.Prelude.{◌≡◌, length};
    ghost use Rattle.pix_format.specs.Value.{colours_of};
    ghost use Rattle.surf_obj.specs.Object.{object_format};
    ghost use Rattle.surf_obj.specs.Surface.{Surface};
    ghost use Rattle.desk_span.specs.InnerPane.{shown_in};

    ghost Value = { Surface };

    ghost view = { λ p. shown_in p.pixels p.table };

    ghost invariant = { λ p. length p.table ≡ colours_of (object_format p.pixels) };
}

impl Pane {
    /// What these pixels show with these colours.
    pub(crate) fn of(pixels: SurfObj, table: ColourTable) -> Pane
        requires { length table ≡ colours_of (object_format pixels) }
        ensures { result ≡ shown_in pixels table }
    {
        Pane { pixels, table }
    }

    /// A surface whose values are all 0.
    pub(crate) fn new(
        alloc: Global,
        size: Size,
        format: Format,
        table: ColourTable,
    ) -> Result<Pane, AllocError>
        requires size { IsSurfaceSize size }
        requires table { length table ≡ colours_of format }
        ensures { IfOk result (λ p. p ≡ blank size format table) }
    {
        let pixels = SurfObj::new(alloc, size, format)?;
        Ok(Pane { pixels, table })
    }

    /// The number of columns and rows.
    pub fn size(&self) -> Size
        ensures size { result ≡ self.now.size }
        ensures sides { HasSides result }
        ensures places { length self.now.values ≡ result.w * result.h }
    {
        self.pixels.size()
    }

    /// How its pixels are kept.
    pub fn format(&self) -> Format
        ensures { result ≡ self.now.format }
    {
        self.pixels.format()
    }

    /// The colours that its values stand for.
    pub(crate) fn table(&self) -> &ColourTable
        ensures table { result.now ≡ self.now.table }
        ensures fits { length result.now ≡ colours_of self.now.format }
    {
        &self.table
    }

    /// Its pixels, to be read.
    pub(crate) fn view(&self) -> LentView<'_>
        ensures size { view_size result ≡ self.now.size }
        ensures format { view_format result ≡ self.now.format }
        ensures values { view_values result ≡ self.now.values }
    {
        self.pixels.view()
    }

    /// Reads its values, row by row, in place of what the list had. The list's room is kept.
    ///
    /// # Errors
    ///
    /// `AllocError` for want of memory; the list is empty then.
    pub(crate) fn read(&self, values: &mut Vec<u32>) -> Result<(), AllocError>
        ensures ok { OnOk result (values.new.items ≡ self.now.values) }
        ensures fits { OnOk result (All (λ v. v < 2 ^ bits_of self.now.format) values.new.items) }
        ensures err { OnErr result (values.new.items ≡ []) }
    {
        let size = self.size();
        values.clear();
        values.resize((size.w * size.h) as usize, 0)?;
        self.view().read_rect(&size.whole(), values.as_mut_slice());
        Ok(())
    }

    /// A brush that is a copy of it, with the background colour in force.
    pub(crate) fn pattern(&self, alloc: Global, back: Rgb) -> Result<BrushObj, AllocError>
        requires width { self.now.size.w ≤ most_pattern_side }
        requires height { self.now.size.h ≤ most_pattern_side }
        ensures { IfOk result (λ b. b ≡ record { face = faces.Pattern (image_of self.now back); slots = [] }) }
    {
        let size = self.pixels.size();
        let mut values = Vec::new(alloc);
        self.read(&mut values)?;
        let format = self.pixels.format();
        match BrushObj::pattern(alloc, size, format, &self.table, &values, back) {
            Ok(brush) => Ok(brush),
            Err(BrushRefusal::NoMemory) => Err(AllocError),
            Err(BrushRefusal::TooLarge(_)) => unreachable!(),
        }
    }

    /// A surface of one row like this one, with these values.
    pub(crate) fn row(&self, alloc: Global, values: &[u32]) -> Result<Pane, AllocError>
        requires some { 1 ≤ length values.now }
        requires few { length values.now ≤ most_side }
        requires fits { All (λ v. v < 2 ^ bits_of self.now.format) values.now }
        ensures { IfOk result (λ r. r ≡ row_like self.now values.now) }
    {
        let size = Size {
            w: values.len() as u32,
            h: 1,
        };
        let table = ColourTable::of(alloc, self.table.colours())?;
        let mut pixels = SurfObj::new(alloc, size, self.pixels.format())?;
        let layout = pixels.layout();
        put_values(pixels.bits_mut(), layout, values);
        Ok(Pane { pixels, table })
    }

    /// Draws a call in the rectangles of a clip that lies in the surface. The surface itself is the source where the call holds its
    /// target and no other surface is handed.
    ///
    /// # Errors
    ///
    /// `AllocError` for want of memory; the surface is unchanged then.
    pub(crate) fn draw(
        &mut self,
        alloc: Global,
        call: &DrawCall,
        inputs: &PaneInputs<'_>,
        clip: &mut ClipObj,
    ) -> Result<(), AllocError>
        requires held { HoldsOwn (held_of call.now) (target_of call.now) }
        requires inside { All (λ r. LiesIn r self.old.size) clip.old.rects }
        ensures ok { let o = operands_with self.old (held_of call.now) inputs.now in
            OnOk result (self.new ≡ changed (new_of_call call.now o) (λ p. is_in_some p clip.old.rects) self.old) }
        ensures err { OnErr result (self.new ≡ self.old) }
    {
        let xlate = self.translation(alloc, call, inputs)?;
        let source = view_of(inputs.source);
        let mask = view_of(inputs.mask);
        let layout = self.pixels.layout();
        let lent = Inputs {
            source: source.as_ref(),
            mask: mask.as_ref(),
            xlate: xlate.as_ref(),
            table: &self.table,
            brush: Some(inputs.brush),
        };
        eng_draw(alloc, self.pixels.bits_mut(), layout, call, &lent, clip)
    }

    /// The translation from the source of a call, where it has one.
    fn translation(
        &self,
        alloc: Global,
        call: &DrawCall,
        inputs: &PaneInputs<'_>,
    ) -> Result<Option<XlateObj>, AllocError>
        ensures { let from = unwrap_or (option_copied inputs.now.source) self.now in
            IfOk result (λ x. x ≡ translation_for call.now (translation from self.now inputs.now.back)) }
    {
        if let DrawCall::Paint(_) = call {
            return Ok(None);
        }
        let from = match inputs.source {
            Some(source) => source,
            None => self,
        };
        let xlate = XlateObj::build(
            alloc,
            from.format(),
            &from.table,
            self.format(),
            &self.table,
            inputs.back,
        )?;
        Ok(Some(xlate))
    }
}

/// The pixels of a surface that may not be there, to be read.
pub fn view_of<'a>(pane: Option<&'a Pane>) -> Option<LentView<'a>>
    ensures { option_map seen_of_view result ≡ option_map seen_of (option_copied pane.entry) }
{
    match pane {
        Some(pane) => Some(pane.view()),
        None => None,
    }
}
