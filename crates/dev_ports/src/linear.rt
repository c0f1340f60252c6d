//! Memory that a device shows.

ghost use Rattle.std.specs.Prelude.{◌≡◌, ◌≤◌, ℕ, List, OnErr, OnOk, length, replicate};
ghost use Rattle.std.specs.Borrow.{Array, Lends, sem, u8 as byte};
ghost use Rattle.copy_port.specs.State.{Rose, next_count};
ghost use Rattle.dev_ports.specs.Power.{HasCause};

use crate::refusals::{PortFault, PowerRefusal};
use geom_base::Counts;
use std::alloc::Global;

/// A device that shows its memory as it stands. It is touched before its bytes are read or written, and counts the touches that failed.
pub trait LinearMem: Drop {
    /// the bytes that it holds
    ghost bytes: { Self → List ℕ };

    /// how many of its calls failed
    ghost failed: { Self → ℕ };

    /// how many times it was touched, from 0 on again after the last value
    ghost touches: { Self → ℕ };

    /// the same device with other bytes
    ghost with_bytes: { Self → List ℕ → Self };

    /// Powers it on with so many bytes, all of them 0; the calls of these numbers fail where it is a device for trials.
    ///
    /// # Errors
    ///
    /// `Fault` where the device failed, which is counted; `NoMemory`.
    fn power_on(&mut self, alloc: Global, count: usize, fails: &Counts) -> Result<(), PowerRefusal>
        ensures ok { OnOk result (bytes self.new ≡ replicate count 0) }
        ensures later { failed self.old ≤ failed self.new }
        ensures cause { HasCause result (failed self.old) (failed self.new) };

    /// Powers it off.
    fn power_off(&mut self)
        ensures later { failed self.old ≤ failed self.new };

    /// Makes its bytes ready to be read and written; they stay as they are.
    ///
    /// # Errors
    ///
    /// The device failed, which is counted.
    fn touch(&mut self) -> Result<(), PortFault>
        ensures bytes { bytes self.new ≡ bytes self.old }
        ensures touched { touches self.new ≡ next_count (touches self.old) }
        ensures later { failed self.old ≤ failed self.new }
        ensures cause { OnErr result (Rose (failed self.old) (failed self.new)) };

    /// Lends its bytes; afterwards it holds what was written there.
    fn bits(&mut self) -> &mut [u8]
        ensures* writes_back { sem 𝓛 (Lends Self.row (Array byte 0) self.entry result (with_bytes self.entry.now)) }
        ensures value { result.now ≡ bytes self.old };

    /// How many of its calls failed, or the greatest number where they were more.
    fn faults(&self) -> u64
        ensures { result ≡ failed self.now };

    ghost bytes_with: { (s : Self) (w : List ℕ) → length w ≡ length (bytes s) → bytes (with_bytes s w) ≡ w };

    ghost failed_with: { (s : Self) (w : List ℕ) → failed (with_bytes s w) ≡ failed s };

    ghost touches_with: { (s : Self) (w : List ℕ) → touches (with_bytes s w) ≡ touches s };
}
