// Numbers that look random.

ghost use Rattle.std.specs.Prelude.{◌≡◌, ◌<◌, ◌^◌};
ghost use Rattle.demo_chips.specs.Draws as model;

/// A generator of numbers, from a number that one can say again.
#[derive(Drop)]
pub struct Draws {
    pub state: u64,
}

impl Draws {
    /// Draws a number below 2^31.
    pub fn draw(&mut self) -> u64
        ensures drawn { result ≡ model.drawn (model.after self.old.state) }
        ensures state { self.new.state ≡ model.after self.old.state }
        ensures below { result < 2 ^ 31 }
    {
        self.state = self
            .state
            .wrapping_mul(6_364_136_223_846_793_005)
            .wrapping_add(1_442_695_040_888_963_407);
        self.state / 8_589_934_592
    }
}
