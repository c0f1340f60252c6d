//! A driver as it stands on the shelf.

ghost use Rattle.std.specs.Prelude.{◌≡◌};

use crate::driver::DisplayDriver;
use brush_obj::{BrushFace, RBrush};
use copy_port::{CopyPort, Pictured, Realizer, TargetInfo};
use geom_base::{DrawnList, PortAnswer, Rect, Target};

/// A driver as it stands on the shelf. It is a port and realizes brushes as the driver does.
#[derive(Drop)]
pub struct DriverPort {
    pub driver: Box<dyn DisplayDriver>,
}

impl DriverPort {
    /// A driver on the shelf.
    pub fn new(driver: Box<dyn DisplayDriver>) -> DriverPort
        ensures { result.driver ≡ driver }
    {
        DriverPort { driver }
    }
}

impl Pictured for DriverPort {
    ghost state = { λ d. (DisplayDriver-box d.driver).Pictured.state d.driver.value };
}

impl CopyPort for DriverPort {
    fn info(&self, target: Target) -> Option<TargetInfo> {
        self.driver.info(target)
    }

    fn read_rect(&mut self, target: Target, rect: Rect, out: &mut [u32]) -> PortAnswer {
        self.driver.read_rect(target, rect, out)
    }

    fn write_rect(
        &mut self,
        target: Target,
        rect: Rect,
        from: &[u32],
        drawn: &mut DrawnList,
    ) -> PortAnswer {
        self.driver.write_rect(target, rect, from, drawn)
    }

    fn synchronise(&mut self, target: Target, rect: Rect) -> PortAnswer {
        self.driver.synchronise(target, rect)
    }

    fn max_cuts(&self) -> u32 {
        self.driver.max_cuts()
    }
}

impl Realizer for DriverPort {
    fn realize_brush(
        &mut self,
        target: Target,
        brush: &BrushFace,
        into: &mut RBrush,
    ) -> PortAnswer {
        self.driver.realize_brush(target, brush, into)
    }
}
