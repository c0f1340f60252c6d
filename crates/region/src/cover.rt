//! Which columns are covered, row after row.

ghost use Rattle.std.specs.Prelude.{◌≡◌, ◌<◌, ◌≤◌, ◌++◌, ◌<ℤ◌, ◌≤ℤ◌, negsuc, length, IfOk, OnOk};
ghost use Rattle.region.specs.InnerCover.{strip_of, steps_in, columns_in, last_in, Splits, IsCover, IsAdded, IsMoved};
ghost use Rattle.region.specs.InnerSpanList.{span_steps, steps_of};
ghost use Rattle.region.specs.InnerEdges.{IsRising, IsRisingFrom, IsBuilt, IsOver};

use crate::span_list::SpanList;
use crate::strip::Strip;
use geom_base::Rect;
use std::alloc::{AllocError, Global};

/// The covered columns between edges, as a tree over the cells between neighbouring ones.
#[derive(Drop)]
pub enum Cover {
    Cell(Strip),
    Pair(Strip, Box<Cover>, Box<Cover>),
}

impl Cover {
    /// The cells between edges, with nothing covered.
    pub fn over(alloc: Global, edges: &[i32]) -> Result<Cover, AllocError>
        requires two { 2 ≤ length edges.now }
        requires rising { IsRising edges.now }
        ensures { IfOk result (IsOver edges.now) }
    {
        match edges {
            [from, others @ ..] => {
                let (cover, _) = Cover::build(alloc, from, others, others.len())?;
                Ok(cover)
            }
            [] => unreachable!(),
        }
    }

    /// So many cells from an edge on, and the edges that are left.
    fn build<'a>(
        alloc: Global,
        from: &i32,
        edges: &'a [i32],
        count: usize,
    ) -> Result<(Cover, &'a [i32]), AllocError>
        requires some { 0 < count }
        requires enough { count ≤ length edges.now }
        requires rising { IsRisingFrom from.now edges.now }
        ensures { IfOk result (λ r. IsBuilt from.now edges.now count r.0 r.1.now) }
    {
        if count == 1 {
            return match edges {
                [to, rest @ ..] => Ok((Cover::Cell(Strip::cell(from, to)), rest)),
                [] => unreachable!(),
            };
        }
        let half = count / 2;
        let (left, rest) = Cover::build(alloc, from, edges, half)?;
        let (right, rest) = Cover::build(alloc, &left.strip().to, rest, count - half)?;
        let strip = Strip::pair(left.strip(), right.strip());
        let left = Box::new(alloc, left)?;
        let right = Box::new(alloc, right)?;
        Ok((Cover::Pair(strip, left, right), rest))
    }

    /// The columns, and what stands in the present row.
    pub fn strip(&self) -> &Strip
        ensures { result.now ≡ strip_of self.now }
    {
        match self {
            Cover::Cell(strip) => strip,
            Cover::Pair(strip, _, _) => strip,
        }
    }

    /// Covers the columns of a rectangle in all rows before its lower edge.
    pub fn add(&mut self, rect: &Rect, row: &i32)
        requires cover { IsCover row.now self.old }
        requires left { Splits rect.now.left self.old }
        requires right { Splits rect.now.right self.old }
        requires bottom { row.now <ℤ rect.now.bottom }
        requires below { negsuc 2147483647 <ℤ rect.now.bottom }
        ensures { IsAdded row.now rect.now self.old self.new }
    {
        match self {
            Cover::Cell(strip) => {
                if strip.is_in(rect) {
                    strip.cover(&rect.bottom);
                }
            }
            Cover::Pair(strip, left, right) => {
                if strip.is_in(rect) {
                    strip.cover(&rect.bottom);
                } else if strip.meets(rect) {
                    left.add(rect, row);
                    right.add(rect, row);
                    if *row <= strip.steady {
                        strip.see_pair(row, left.strip(), right.strip());
                    }
                }
            }
        }
    }

    /// Goes on to a row.
    pub fn go_to(&mut self, row: &i32)
        requires { IsCover row.now self.old }
        ensures { IsMoved row.now self.old self.new }
    {
        match self {
            Cover::Cell(strip) => {
                if strip.steady < *row {
                    strip.see_cell(row);
                }
            }
            Cover::Pair(strip, left, right) => {
                if strip.steady < *row {
                    left.go_to(row);
                    right.go_to(row);
                    strip.see_pair(row, left.strip(), right.strip());
                }
            }
        }
    }

    /// The columns of the present row.
    pub fn columns(&self, alloc: Global, row: &i32) -> Result<SpanList, AllocError>
        requires cover { IsCover row.now self.now }
        requires steady { row.now ≤ℤ (strip_of self.now).steady }
        ensures { IfOk result (λ r. span_steps r.spans.items ≡ columns_in self.now row.now) }
    {
        let mut columns = SpanList::new(alloc);
        self.push_steps(row, &mut columns)?;
        columns.turn(self.strip().to, false)?;
        Ok(columns)
    }

    /// Turns at each column of the present row where what is covered changes.
    fn push_steps(&self, row: &i32, out: &mut SpanList) -> Result<(), AllocError>
        requires cover { IsCover row.now self.now }
        requires steady { row.now ≤ℤ (strip_of self.now).steady }
        ensures steps { OnOk result (steps_of out.new ≡ steps_of out.old ++ steps_in self.now row.now out.old.inside) }
        ensures inside { OnOk result (out.new.inside ≡ last_in self.now row.now) }
    {
        match self {
            Cover::Cell(strip) => out.turn(strip.from, *row < strip.until),
            Cover::Pair(strip, left, right) => {
                if *row < strip.until {
                    return out.turn(strip.from, true);
                }
                if strip.row.filled == 0 {
                    return out.turn(strip.from, false);
                }
                left.push_steps(row, out)?;
                right.push_steps(row, out)
            }
        }
    }
}
