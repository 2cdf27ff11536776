// How many ticks a frame lives.
ghost use Rattle.std.specs.Prelude.{◌≡◌, ◌-◌, min, max};
ghost use Rattle.carrier.specs.Lifetimes.{ticks_of};

// One outside 1 to 65,535 is taken as the nearer end. With a ghost field that says so, a shelf could not stand for a type parameter.
#[derive(Clone, Copy)]
pub struct Lifetime {
    given: u32,
}

impl Lifetime {
    pub fn new(given: u32) -> Lifetime
        ensures { ticks_of result ≡ min 65535 (max 1 given) }
    {
        Lifetime { given }
    }

    pub fn ticks(self) -> u32
        ensures { result ≡ ticks_of self }
    {
        self.given.clamp(1, 65535)
    }

    // An age, kept below the lifetime.
    pub fn cut(self, age: u32) -> u32
        ensures { result ≡ min age (ticks_of self - 1) }
    {
        age.min(self.ticks() - 1)
    }
}
