//! Numbers that look drawn at random, and are the same again for the same beginning.
ghost use Rattle.std.specs.Prelude.{◌≡◌, ◌<◌};
ghost use Rattle.usb_generate.specs.Draws.{beginning, next, draw};

use std::marker::Model;

const FACTOR: u64 = 1_103_515_245;

const SUMMAND: u64 = 12_345;
// One more than the greatest number.
const MODULUS: u64 = 1 << 31;

/// A linear congruential generator. Contracts see where it stands.
#[derive(Drop)]
pub struct Draws {
    x: u32,
}

impl Model for Draws {
    ghost use Rattle.std.specs.Prelude.{ℕ};

    ghost Value = { ℕ };

    ghost view = { λ d. d.x };
}

impl Draws {
    /// The draws of a number.
    pub fn of(number: u32) -> Draws
        ensures { result ≡ beginning number }
    {
        Draws {
            x: (number as u64 % MODULUS) as u32,
        }
    }

    /// Draws a number below `n`. The low sixteen bits, which repeat soon, are left out.
    #[tactic(auto, unfolding(crate::specs::Draws::next))]
    pub fn draw(&mut self, n: u32) -> u32
        requires { 0 < n }
        ensures value { result ≡ draw self.old 0 n }
        ensures below { result < n }
        ensures stands { self.new ≡ next self.old }
    {
        self.x = ((FACTOR * self.x as u64 + SUMMAND) % MODULUS) as u32;
        self.x / 65_536 % n
    }
}
