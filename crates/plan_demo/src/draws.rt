ghost use Rattle.std.specs.Prelude.{◌≡◌, ◌<◌, ◌+◌, ◌^◌};
ghost use Rattle.plan_demo.specs.Draws.{next, draw};

use std::marker::Model;

/// What a demonstration has still to draw: a state below 2^31, which each draw moves on.
#[derive(Debug, Drop)]
pub struct Draws {
    state: u32,
}

impl Model for Draws {
    ghost use Rattle.std.specs.Prelude.{ℕ, ◌<◌};

    ghost Value = { ℕ };

    ghost view = { λ d. d.state };

    ghost invariant = { λ d. d.state < 2147483648 };
}

impl Draws {
    /// All that the demonstration of this number draws.
    pub fn of(number: u32) -> Draws
        requires { number < 2147483648 }
        ensures { result ≡ number }
    {
        Draws { state: number }
    }

    /// A number below the bound, which is above 0.
    pub(crate) fn below(&mut self, bound: u32) -> u32
        requires { 0 < bound }
        ensures value { result ≡ draw bound self.old }
        ensures less { result < bound }
        ensures state { self.new ≡ next self.old }
    {
        self.state = after(self.state);
        self.state / 65_536 % bound
    }
}

// The state after this one.
#[tactic(auto, unfolding(crate::specs::Draws::next))]
fn after(state: u32) -> u32
    requires { state < 2147483648 }
    ensures next { result ≡ next state }
    ensures less { result < 2147483648 }
{
    ((u64::from(state) * 1_103_515_245 + 12_345) % 2_147_483_648) as u32
}
