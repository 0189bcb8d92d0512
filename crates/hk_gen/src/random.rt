// The random numbers of a generated site.
ghost use Rattle.std.specs.Prelude.{◌≡◌};
ghost use Rattle.hk_gen.specs.Random as spec;

/// A linear congruential generator of 31 bits.
#[derive(Drop)]
pub struct Random {
    state: u32,
}

/// The three numbers that a post is made of, each below 32,768.
#[derive(Clone, Copy)]
pub struct Draws {
    pub first: u32,
    pub second: u32,
    pub third: u32,
}

impl Random {
    /// A generator that starts from a number.
    pub fn new(number: u32) -> Random
        ensures { result.state ≡ spec.start number }
    {
        Random {
            state: number % 2_147_483_648,
        }
    }

    /// The next three numbers.
    pub fn draws(&mut self) -> Draws
        ensures moved { self.new.state ≡ spec.after_draws self.old.state }
        ensures drawn { result ≡ spec.draws self.old.state }
    {
        Draws {
            first: self.draw(),
            second: self.draw(),
            third: self.draw(),
        }
    }

    fn draw(&mut self) -> u32
        ensures moved { self.new.state ≡ spec.next self.old.state }
        ensures drawn { result ≡ spec.drawn (spec.next self.old.state) }
    {
        let state = (1_103_515_245 * u64::from(self.state) + 12_345) % 2_147_483_648;
        self.state = state as u32;
        self.state / 65_536
    }
}
