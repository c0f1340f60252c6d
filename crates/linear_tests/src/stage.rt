//! A small screen in memory, that of a driver on the shelf.

ghost use Rattle.std.specs.Prelude.{◌≤◌, IfOk, OnOk};
ghost use Rattle.ddi_driver.specs.Modes.{AreModeNumbers};
ghost use Rattle.linear_tests.specs.Stage.{IsStage, IsStageMode};

use crate::props::{SIZE, WHOLE};
use copy_port::{Classes, Hooks, Mode, Pictured};
use ddi_driver::{DriverPort, EnableRefusal, disable, enable, read_port};
use geom_base::{Counts, PortAnswer, Target};
use pix_format::{ColourTable, Format};
use std::alloc::{AllocError, Global};

/// A mode with that screen.
fn mode(
    alloc: Global,
    hooks: Hooks,
    takes: Classes,
    decline: u32,
    faults: Counts,
) -> Result<Mode, AllocError>
    requires decline { decline ≤ 1000000 }
    requires faults { AreModeNumbers faults }
    ensures { IfOk result IsStageMode }
{
    let table = ColourTable::standard(alloc, Format::B8)?;
    Ok(Mode {
        size: SIZE,
        format: Format::B8,
        table,
        hooks,
        takes,
        decline,
        bank: 8,
        ring: 64,
        spare: 0,
        pace: Counts::of(Vec::new(alloc)),
        faults,
    })
}

/// Enables a driver anew in such a mode.
///
/// # Errors
///
/// As `enable`.
pub fn enable_anew(
    alloc: Global,
    driver: &mut DriverPort,
    hooks: Hooks,
    takes: Classes,
    decline: u32,
    faults: Counts,
) -> Result<(), EnableRefusal>
    requires decline { decline ≤ 1000000 }
    requires faults { AreModeNumbers faults }
    ensures { OnOk result (IsStage (⟦<DriverPort as Pictured>⟧.state driver.new)) }
{
    let mode = mode(alloc, hooks, takes, decline, faults)?;
    disable(driver);
    enable(alloc, driver, &mode)
}

/// Reads the whole screen.
pub fn pixels(driver: &mut DriverPort) -> (PortAnswer, [u32; 24])
    requires stage { IsStage (⟦<DriverPort as Pictured>⟧.state driver.old) }
    ensures stage { IsStage (⟦<DriverPort as Pictured>⟧.state driver.new) }
{
    let mut values = [0; 24];
    let answer = read_port(driver, Target::Screen, WHOLE, &mut values);
    (answer, values)
}
