//! Numbers below a limit.
ghost use Rattle.std.specs.Prelude.{◌≡◌, ◌<◌, ⊤, MatchOption};

use crate::numbers::Number;
use std::alloc::AllocError;
use std::marker::PhantomData;

// A checked constructor, as the library's `NonZero::new` is, and no conversion.
impl<Of, const LIMIT: u16> Number<Of, LIMIT> {
    pub fn new(number: u16) -> Option<Self>
        ensures { MatchOption result (number < LIMIT → ⊥) (λ n. n.number ≡ number) }
    {
        if number < LIMIT {
            Some(Self::of(number))
        } else {
            None
        }
    }

    pub(crate) fn of(number: u16) -> Self
        requires { number < LIMIT }
        ensures { result.number ≡ number }
    {
        Number {
            number,
            of: PhantomData,
        }
    }

    pub fn number(self) -> u16
        ensures { (result ≡ self.number) × (result < LIMIT) }
    {
        self.number
    }
}

// By hand: a derive is refused beside a ghost fact in a generic type.
impl<Of, const LIMIT: u16> Clone for Number<Of, LIMIT> {
    ghost is_clone = { λ x y. y ≡ x };

    ghost is_infallible = { λ _. ⊤ };

    fn clone(&self) -> Result<Self, AllocError> {
        Ok(*self)
    }
}
