//! Which driver of the shelf a screen takes.

ghost use Rattle.std.specs.Prelude.{◌≡◌, map};
ghost use Rattle.desk_shelf.specs.Free.{first_free, held_of, is_free};

use copy_port::{Kind, Pictured};
use ddi_driver::{DriverPort, is_enabled, kind};

/// Whether a driver is disabled and of a kind.
fn is_free(driver: &DriverPort, wanted: Kind) -> bool
    ensures { result ≡ is_free wanted (⟦<DriverPort as Pictured>⟧.state driver.now) }
{
    kind(driver) == wanted && !is_enabled(driver)
}

/// The place of the first driver of a kind that is disabled, or `None` where there is none.
pub fn first_free(shelf: &[DriverPort], wanted: Kind) -> Option<usize>
    ensures { result ≡ first_free wanted (map (λ d. ⟦<DriverPort as Pictured>⟧.state d) shelf.now) }
{
    for (place, driver) in shelf.iter().enumerate() {
        if is_free(driver, wanted) {
            return Some(place);
        }
    }
    None
}

/// How many drivers of a kind are disabled.
pub fn held_of(shelf: &[DriverPort], wanted: Kind) -> usize
    ensures { result ≡ held_of wanted (map (λ d. ⟦<DriverPort as Pictured>⟧.state d) shelf.now) }
{
    let mut held = 0;
    for driver in shelf {
        if is_free(driver, wanted) {
            held += 1;
        }
    }
    held
}
