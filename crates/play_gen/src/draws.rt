//! The numbers that a generated play draws.
ghost use Rattle.std.specs.Prelude.{◌≡◌, ◌<◌};
ghost use Rattle.play_gen.specs.Draws.{next_state, state_after, draw};

/// A generator of numbers, by the step and the high bits of the C standard's example of `rand`.
#[derive(Debug, Drop)]
pub struct Draws {
    /// The state; below 2^31 after each draw.
    pub state: u32,
}

impl Draws {
    /// Steps to the next state.
    #[tactic(auto, unfolding(crate::specs::Draws::next_state))]
    fn step(&mut self)
        ensures { self.new.state ≡ next_state self.old.state }
    {
        let grown = u64::from(self.state) * 1_103_515_245 + 12_345;
        self.state = (grown % 2_147_483_648) as u32;
    }

    /// Draws a number: steps the state and returns a number below `bound`.
    #[tactic(auto, unfolding(crate::specs::Draws::state_after))]
    pub fn below(&mut self, bound: u32) -> u32
        requires { 0 < bound }
        ensures value { result ≡ draw self.old.state 0 bound }
        ensures state { self.new.state ≡ state_after 1 self.old.state }
        ensures bound { result < bound }
    {
        self.step();
        self.state / 65_536 % bound
    }
}
