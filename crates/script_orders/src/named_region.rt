//! Regions that have names.

ghost use Rattle.std.specs.Prelude.{◌≡◌, IfOk};
ghost use Rattle.region.specs.Window.{Within};

use region::Region;
use std::alloc::{AllocError, Global};
use std::marker::Model;
use std::rc::Rc;

/// A region whose edges are coordinates of a desktop.
#[derive(Drop)]
pub struct NamedRegion {
    region: Rc<Region>,
}

impl Model for NamedRegion {
    ghost use Rattle.std.specs.Prelude.{List};
    ghost use Rattle.geom_base.specs.declared.rect.Rect.{Rect};
    ghost use Rattle.region.specs.Window.{Within};

    ghost Value = { List Rect };

    ghost view = { λ r. r.region.value };

    ghost invariant = { λ r. Within r.region.value };
}

impl NamedRegion {
    /// The region.
    pub fn of(alloc: Global, region: Region) -> Result<NamedRegion, AllocError>
        requires { Within region }
        ensures { IfOk result (λ r. r ≡ region) }
    {
        let region = match Rc::new(alloc, region) {
            Ok(region) => region,
            Err(_) => return Err(AllocError),
        };
        Ok(NamedRegion { region })
    }

    /// Another owner of the same region. No memory is taken: it fails only where the count of owners is at its end.
    pub fn shared(&self) -> Result<NamedRegion, AllocError>
        ensures { IfOk result (λ r. r ≡ self.now) }
    {
        let region = self.region.clone()?;
        Ok(NamedRegion { region })
    }

    /// Its points.
    pub fn region(&self) -> &Region
        ensures value { result.now ≡ self.now }
        ensures within { Within result.now }
    {
        &self.region
    }
}
