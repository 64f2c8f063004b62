//! A clock that gives the number that it was made with.
ghost use Rattle.std.specs.Prelude.{◌≡◌, ◌≤◌, ◌^◌};

use crate::clock::Clock;
use std::marker::Model;

/// A clock that stands still, seen as its number.
#[derive(Drop)]
pub struct FixedClock {
    moment: u64,
}

impl Model for FixedClock {
    ghost use Rattle.std.specs.Prelude.{ℕ, ◌≤◌, ◌^◌};

    ghost Value = { ℕ };

    ghost view = { λ clock. clock.moment };

    ghost invariant = { λ clock. clock.moment ≤ 2 ^ 62 };
}

impl FixedClock {
    pub fn new(now: u64) -> FixedClock
        requires { now ≤ 2 ^ 62 }
        ensures { result ≡ now }
    {
        FixedClock { moment: now }
    }
}

impl Clock for FixedClock {
    ghost modelled = { Unit {0} };

    ghost moment = { λ clock. clock };

    fn now(&mut self) -> u64
        ensures bound { result ≤ 2 ^ 62 }
        ensures moment { result ≡ self.old }
        ensures unchanged { self.new ≡ self.old }
    {
        self.moment
    }
}
