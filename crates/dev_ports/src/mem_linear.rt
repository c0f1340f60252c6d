//! A device whose memory is a vector.

use crate::linear::LinearMem;
use crate::refusals::{PortFault, PowerRefusal};
use geom_base::Counts;
use std::alloc::Global;

/// A device whose memory is a vector. Powering it on is its call 0, and its touches since then are numbered from 1; those fail that were named
/// when it was powered on.
#[derive(Drop)]
pub struct MemLinear {
    bytes: Vec<u8>,
    /// The numbers of the calls that fail.
    fails: Counts,
    touches: u64,
    faults: u64,
}

impl MemLinear {
    ghost use Rattle.std.specs.Prelude.{◌≡◌, ◌≤◌, true};
    ghost use Rattle.dev_ports.specs.Memory.{IsOff, SameButFaults, faults_after};

    /// A device that is off.
    pub fn new(alloc: Global) -> MemLinear
        ensures { IsOff result }
    {
        MemLinear {
            bytes: Vec::new(alloc),
            fails: Counts::of(Vec::new(alloc)),
            touches: 0,
            faults: 0,
        }
    }

    /// Counts a call that failed.
    fn count_fault(&mut self)
        ensures faults { self.new.faults ≡ faults_after true self.old.faults }
        ensures later { self.old.faults ≤ self.new.faults }
        ensures others { SameButFaults self.old self.new }
    {
        self.faults = self.faults.saturating_add(1);
    }
}

impl LinearMem for MemLinear {
    ghost use Rattle.std.specs.Prelude.{◌≡◌, ◌≤◌, true, OnErr, OnOk, is_err, refl, replicate};
    ghost use Rattle.std.specs.Vec.{with_items};
    ghost use Rattle.copy_port.specs.State.{Rose, next_count};
    ghost use Rattle.dev_ports.specs.Power.{HasCause};
    ghost use Rattle.dev_ports.specs.Memory.{IsOn, Touched, fails_at, is_among};
    ghost use Rattle.dev_ports.specs.MemoryLaws.{with_items-same};

    ghost bytes = { λ m. m.bytes.items };

    ghost failed = { λ m. m.faults };

    ghost touches = { λ m. m.touches };

    ghost with_bytes = { λ m w. record m { bytes = with_items m.bytes w } };

    ghost bytes_with = { λ m w e. with_items-same m.bytes w e };

    ghost failed_with = { λ m w. refl };

    ghost touches_with = { λ m w. refl };

    /// Powers it on, if 0 isn't one of the numbers.
    fn power_on(&mut self, alloc: Global, count: usize, fails: &Counts) -> Result<(), PowerRefusal>
        ensures ok { OnOk result (self.new.bytes.items ≡ replicate count 0) }
        ensures later { self.old.faults ≤ self.new.faults }
        ensures cause { HasCause result self.old.faults self.new.faults }
        ensures on { OnOk result (IsOn count fails.now self.new) }
        ensures refused { is_among 0 fails.now ≡ true → is_err result ≡ true }
    {
        if fails.holds(0) {
            self.count_fault();
            return Err(PowerRefusal::Fault);
        }
        let numbers = Vec::from_slice(alloc, fails.numbers())?;
        self.bytes = vec![in alloc; 0u8; count]?;
        self.fails = Counts::of(numbers);
        self.touches = 0;
        Ok(())
    }

    fn power_off(&mut self) {
        self.bytes.clear();
    }

    /// Fails exactly where its number is one of those that were named.
    fn touch(&mut self) -> Result<(), PortFault>
        ensures bytes { self.new.bytes.items ≡ self.old.bytes.items }
        ensures touched { self.new.touches ≡ next_count self.old.touches }
        ensures later { self.old.faults ≤ self.new.faults }
        ensures cause { OnErr result (Rose self.old.faults self.new.faults) }
        ensures fails { is_err result ≡ fails_at self.old }
        ensures counted { Touched (fails_at self.old) self.old self.new }
    {
        self.touches = self.touches.wrapping_add(1);
        if self.fails.holds(self.touches) {
            self.count_fault();
            return Err(PortFault);
        }
        Ok(())
    }

    fn bits(&mut self) -> &mut [u8] {
        self.bytes.as_mut_slice()
    }

    fn faults(&self) -> u64 {
        self.faults
    }
}

#[cfg(test)]
mod tests {
    use super::*;
    use std::alloc::AllocError;
    use std::test::Fail;

    fn numbers(alloc: Global, list: &[u64]) -> Result<Counts, AllocError> {
        Ok(Counts::of(Vec::from_slice(alloc, list)?))
    }

    #[test]
    fn touches_fail_by_their_numbers(rt: HostRuntime) -> Result<(), Fail> {
        let alloc = rt.alloc();
        let mut device = MemLinear::new(alloc);
        let fails = numbers(alloc, &[2, 3, 5])?;
        assert_eq!(rt; device.power_on(alloc, 4, &fails), Ok(()));
        for (number, failed) in [(1, 0), (2, 1), (3, 2), (4, 2), (5, 3), (6, 3)] {
            let before = device.faults();
            let touched = device.touch();
            assert_eq!(rt; device.faults(), failed, "{number}");
            assert_eq!(rt; touched.is_err(), device.faults() > before, "{number}");
        }
        Ok(())
    }

    #[test]
    fn powering_on_begins_anew(rt: HostRuntime) -> Result<(), Fail> {
        let alloc = rt.alloc();
        let mut device = MemLinear::new(alloc);
        let first = numbers(alloc, &[1])?;
        assert_eq!(rt; device.power_on(alloc, 3, &first), Ok(()));
        assert_eq!(rt; device.touch(), Err(PortFault));
        device.bits().fill(7);
        assert_eq!(rt; &*device.bits(), [7, 7, 7].as_slice());
        device.power_off();
        let at_once = numbers(alloc, &[0])?;
        assert_eq!(rt;
            device.power_on(alloc, 3, &at_once),
            Err(PowerRefusal::Fault)
        );
        assert_eq!(rt; device.faults(), 2);
        let none = numbers(alloc, &[])?;
        assert_eq!(rt; device.power_on(alloc, 2, &none), Ok(()));
        assert_eq!(rt; &*device.bits(), [0, 0].as_slice());
        assert_eq!(rt; device.touch(), Ok(()));
        assert_eq!(rt; device.faults(), 2);
        Ok(())
    }
}
