//! The clock that gives fresh files their stamps: microseconds since 1601-01-01 UTC.
ghost use Rattle.std.specs.Prelude.{◌≡◌, ℕ, ◌≤◌, ◌^◌};

pub trait Clock: Drop {
    /// Has a value where the number that comes next is known.
    ghost modelled: { Type 0 };

    /// The number that comes next.
    ghost moment: { Self → ℕ };

    /// The moment, at most 2^62. It may stand still or go back.
    fn now(&mut self) -> u64
        ensures bound { result ≤ 2 ^ 62 }
        ensures moment { modelled → result ≡ moment self.old };
}

impl<C: Clock> Clock for &mut C {
    ghost modelled = { C.modelled };

    ghost moment = { λ clock. C.moment clock.now };

    fn now(&mut self) -> u64 {
        (**self).now()
    }
}
