//! Rectangles that were drawn.

ghost use Rattle.std.specs.Prelude.{◌≡◌, ◌+◌, ◌≤◌, ◌||◌, [], IsTrue, length, min, OnOk, OnErr, false};
ghost use Rattle.std.specs.List.{All};
ghost use Rattle.geom_base.specs.Points.{HasPoints, is_in, is_in_some};
ghost use Rattle.geom_base.specs.Drawn.{continues, continues_last, joined, pushed};
ghost use Rattle.geom_base.specs.declared.point.Point.{Point};

use crate::rect::Rect;
use std::alloc::{AllocError, Global};
use std::marker::Model;

/// The rectangles that were drawn, with room for more. A rectangle that continues the last one is joined to it, so that a
/// rectangle drawn in parts from top to bottom, or from bottom to top, is one entry.
#[derive(Drop)]
pub struct DrawnList {
    entries: Vec<Rect>,
}

impl Model for DrawnList {
    ghost use Rattle.std.specs.Prelude.{◌-◌, vec_capacity, vec_len};
    ghost use Rattle.std.specs.List.{All};
    ghost use Rattle.geom_base.specs.Drawn.{Drawn};
    ghost use Rattle.geom_base.specs.Points.{HasPoints};

    ghost Value = { Drawn };

    ghost view = { λ d. record { rects = d.entries.items; spare = vec_capacity d.entries - vec_len d.entries } };

    ghost invariant = { λ d. All HasPoints d.entries.items };
}

impl DrawnList {
    /// An empty list, which takes no memory.
    pub fn new(alloc: Global) -> DrawnList
        ensures { result.rects ≡ [] }
    {
        DrawnList {
            entries: Vec::new(alloc),
        }
    }

    /// How many more entries it has room for.
    pub fn spare(&self) -> usize
        ensures { result ≡ self.now.spare }
    {
        self.entries.capacity() - self.entries.len()
    }

    /// The rectangles, each of which has points.
    pub fn rects(&self) -> &[Rect]
        ensures rects { result.now ≡ self.now.rects }
        ensures points { All HasPoints result.now }
    {
        self.entries.as_slice()
    }

    /// Makes room for so many more entries.
    ///
    /// # Errors
    ///
    /// `AllocError` for want of memory; the list is unchanged then.
    pub fn reserve(&mut self, n: usize) -> Result<(), AllocError>
        ensures rects { self.new.rects ≡ self.old.rects }
        ensures ok { OnOk result (n ≤ self.new.spare) }
        ensures kept { self.old.spare ≤ self.new.spare }
        ensures err { OnErr result (self.new ≡ self.old) }
    {
        self.entries.reserve(n)
    }

    /// Adds the points of a rectangle.
    pub fn push(&mut self, rect: Rect)
        requires points { HasPoints rect }
        requires room { continues_last self.old.rects rect ≡ false → 1 ≤ self.old.spare }
        ensures rects { self.new.rects ≡ pushed self.old.rects rect }
        ensures points { (p : Point) → is_in_some p self.new.rects ≡ (is_in_some p self.old.rects || is_in p rect) }
        ensures spare { self.old.spare ≤ self.new.spare + 1 }
        ensures joined { IsTrue (continues_last self.old.rects rect) → self.new.spare ≡ self.old.spare }
        ensures room { length self.old.rects + self.old.spare ≤ length self.new.rects + self.new.spare }
    {
        if continues_last(&self.entries, &rect) {
            let last = self.entries.len() - 1;
            self.entries[last] = joined(&self.entries[last], &rect);
            return;
        }
        self.entries.push_reserved(rect);
    }

    /// Gives back what room there is for more than so many further entries.
    pub fn give_back(&mut self, spare: usize)
        ensures rects { self.new.rects ≡ self.old.rects }
        ensures kept { min spare self.old.spare ≤ self.new.spare }
        ensures less { self.new.spare ≤ self.old.spare }
    {
        if spare < self.spare() {
            self.entries.shrink_to(self.entries.len() + spare);
        }
    }

    /// Takes all rectangles away; the room stays.
    pub fn clear(&mut self)
        ensures rects { self.new.rects ≡ [] }
        ensures spare { length self.old.rects + self.old.spare ≤ self.new.spare }
    {
        self.entries.clear();
    }
}

/// Whether a rectangle has the columns of another and touches it below or above.
fn continues(last: &Rect, rect: &Rect) -> bool
    ensures { result ≡ continues last.now rect.now }
{
    if last.left != rect.left {
        return false;
    }
    if last.right != rect.right {
        return false;
    }
    last.bottom == rect.top || rect.bottom == last.top
}

/// Whether a rectangle continues the last of a list.
fn continues_last(rects: &[Rect], rect: &Rect) -> bool
    ensures { result ≡ continues_last rects.now rect.now }
{
    if rects.is_empty() {
        return false;
    }
    continues(&rects[rects.len() - 1], rect)
}

/// Two rectangles of the same columns in one.
fn joined(last: &Rect, rect: &Rect) -> Rect
    ensures { result ≡ joined last.now rect.now }
{
    Rect {
        left: last.left,
        top: last.top.min(rect.top),
        right: last.right,
        bottom: last.bottom.max(rect.bottom),
    }
}

#[cfg(test)]
mod tests {
    use super::*;
    use std::test::Fail;

    fn rect(left: i32, top: i32, right: i32, bottom: i32) -> Rect
        ensures { result ≡ record { left = left; top = top; right = right; bottom = bottom } }
    {
        Rect {
            left,
            top,
            right,
            bottom,
        }
    }

    #[test]
    fn rows_of_a_rectangle_are_one_entry(rt: HostRuntime) -> Result<(), Fail> {
        let mut drawn = DrawnList::new(rt.alloc());
        drawn.reserve(6)?;
        let spare = drawn.spare();
        drawn.push(rect(2, 5, 9, 6));
        drawn.push(rect(2, 6, 9, 7));
        drawn.push(rect(2, 4, 9, 5));
        assert_eq!(rt; drawn.rects(), [rect(2, 4, 9, 7)].as_slice());
        assert_eq!(rt; drawn.spare(), spare - 1);
        drawn.push(rect(2, 7, 8, 8));
        drawn.push(rect(0, 0, 1, 1));
        let want = [rect(2, 4, 9, 7), rect(2, 7, 8, 8), rect(0, 0, 1, 1)];
        assert_eq!(rt; drawn.rects(), want.as_slice());
        drawn.give_back(1);
        assert_eq!(rt; drawn.rects(), want.as_slice());
        assert!(rt; drawn.spare() >= 1);
        drawn.clear();
        assert!(rt; drawn.rects().is_empty());
        assert!(rt; drawn.spare() >= 4);
        Ok(())
    }
}
