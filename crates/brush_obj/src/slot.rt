//! The places of drivers in a brush.

ghost use Rattle.std.specs.Prelude.{◌≡◌, ◌<◌, ◌==◌, IsTrue, None, OnErr, OnOk, length, position, slice_set};
ghost use Rattle.brush_obj.specs.Slots.{OnlyOf, is_among, kept_among};

use crate::rbrush::RBrush;
use std::alloc::AllocError;

/// The place of an owner in a brush, with the realised brush that it keeps there, if any.
#[derive(Drop)]
pub struct Slot {
    pub owner: u32,
    pub realised: Option<RBrush>,
}

/// Whether an owner has a slot.
fn has_place(slots: &[Slot], owner: u32) -> bool
    ensures { result ≡ is_among slots.now owner }
{
    slots.iter().any(|slot| slot.owner == owner)
}

/// Where an owner has its slot, or `None` where it has none.
pub fn find_place(slots: &[Slot], owner: u32) -> Option<usize>
    ensures { result ≡ position (λ s. s.owner == owner) slots.now }
{
    slots.iter().position(|slot| slot.owner == owner)
}

/// Puts a slot in the place of another.
fn set(slots: &mut [Slot], at: usize, slot: Slot)
    requires { at < length slots.old }
    ensures { slots.new ≡ slice_set slots.old at slot }
{
    slots[at] = slot;
}

/// Fills or empties the slot of an owner that has a place.
pub fn fill(slots: &mut [Slot], owner: u32, realised: Option<RBrush>)
    requires { IsTrue (is_among slots.old owner) }
    ensures kept { kept_among slots.new owner ≡ realised }
    ensures place { IsTrue (is_among slots.new owner) }
    ensures others { OnlyOf owner slots.old slots.new }
{
    if let Some(at) = find_place(slots, owner) {
        set(slots, at, Slot { owner, realised });
    }
}

/// Gives an owner an empty slot.
pub fn make_place(slots: &mut Vec<Slot>, owner: u32) -> Result<(), AllocError>
    ensures place { OnOk result (IsTrue (is_among slots.new.items owner)) }
    ensures empty { OnOk result (kept_among slots.new.items owner ≡ None) }
    ensures others { OnOk result (OnlyOf owner slots.old.items slots.new.items) }
    ensures err { OnErr result (slots.new.items ≡ slots.old.items) }
{
    if has_place(slots.as_slice(), owner) {
        fill(slots.as_mut_slice(), owner, None);
        return Ok(());
    }
    slots.push(Slot {
        owner,
        realised: None,
    })?;
    Ok(())
}
