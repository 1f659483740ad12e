//! Pseudorandom numbers, drawn from a seed.
ghost use Rattle.std.specs.Prelude.{◌≡◌};
ghost use Rattle.pb_make.specs.Draws.{next_number, draw_from};

// A linear congruential generator, which holds a number of 64 bits.
#[derive(Drop)]
pub(crate) struct Generator {
    pub(crate) number: u64,
}

impl Generator {
    const MULTIPLIER: u64 = 6364136223846793005;

    const INCREMENT: u64 = 1442695040888963407;

    pub(crate) fn new(seed: u32) -> Generator
        ensures { result.number ≡ seed }
    {
        Generator {
            number: u64::from(seed),
        }
    }

    // The next draw: the upper half of the number that the generator then holds. The lower half
    // repeats itself sooner.
    pub(crate) fn draw(&mut self) -> u32
        ensures draw { result ≡ draw_from self.old.number }
        ensures after { self.new.number ≡ next_number self.old.number }
    {
        // The generator counts modulo 2^64, so both steps are meant to wrap.
        let product = Self::MULTIPLIER.wrapping_mul(self.number);
        self.number = product.wrapping_add(Self::INCREMENT);
        (self.number >> 32) as u32
    }
}
