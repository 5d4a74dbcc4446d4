//! Locations.
ghost use Rattle.std.specs.Prelude.{◌≡◌};

use crate::numbers::Location;

impl Location {
    pub fn new(number: u16) -> Self
        ensures { result.number ≡ number }
    {
        Location { number }
    }

    pub fn number(self) -> u16
        ensures { result ≡ self.number }
    {
        self.number
    }
}
