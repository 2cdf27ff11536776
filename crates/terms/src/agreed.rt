// The five numbers that both ends of a path agree on.
ghost use Rattle.std.specs.Prelude.{◌≡◌, ◌+◌, ◌%◌, ◌≤◌, MatchOption, MatchResult};
ghost use Rattle.terms.specs.Rules.{Between, InRange, RoundedUp, Enough, Least, LeastIf, TermsRefused};

use refusal::Refusal;

#[derive(Clone, Copy)]
pub struct Terms {
    // SW, the size of the sender's store
    send_window: u32,
    // RW, the size of the receiver's store
    receive_window: u32,
    // L, the longest life of a frame in ticks
    lifetime: u32,
    // δ, the fewest ticks between two first sends
    gap: u32,
    // N, how many cyclic numbers there are
    numbers: u32,
    ghost range: { InRange send_window receive_window lifetime gap },
    ghost count: { Between 1 numbers 65536 },
    ghost enough: { Enough send_window receive_window lifetime gap numbers },
}

// The terms that the least count of numbers follows from, each in its range. No part of `Terms`: every contract above names its five fields.
#[derive(Clone, Copy)]
struct Sizes {
    send_window: u32,
    receive_window: u32,
    lifetime: u32,
    gap: u32,
    ghost range: { InRange send_window receive_window lifetime gap },
}

impl Sizes {
    fn new(send_window: u32, receive_window: u32, lifetime: u32, gap: u32) -> Option<Sizes>
        ensures { MatchOption result (InRange send_window receive_window lifetime gap → ⊥) (λ s. (s.send_window ≡ send_window) × (s.receive_window ≡ receive_window) × (s.lifetime ≡ lifetime) × (s.gap ≡ gap)) }
    {
        let windows = 1..=4096;
        let ticks = 1..=65535;
        let in_range = windows.contains(&send_window)
            && windows.contains(&receive_window)
            && ticks.contains(&lifetime)
            && ticks.contains(&gap);
        if !in_range {
            return None;
        }
        Some(Sizes {
            send_window,
            receive_window,
            lifetime,
            gap,
        })
    }

    // K, how many gaps a lifetime reaches into.
    fn gaps(self) -> u32
        ensures rounded { RoundedUp self.lifetime self.gap result }
        ensures bound { result ≤ self.lifetime + self.gap }
    {
        (self.lifetime + self.gap - 1) / self.gap
    }

    // SW + RW + K.
    fn least(self) -> u32
        ensures { Least self.send_window self.receive_window self.lifetime self.gap result }
    {
        self.gaps() + self.send_window + self.receive_window
    }
}

// SW + RW + K, where all four are in range.
pub fn least_numbers(send_window: u32, receive_window: u32, lifetime: u32, gap: u32) -> Option<u32>
    ensures { LeastIf send_window receive_window lifetime gap result }
{
    Some(Sizes::new(send_window, receive_window, lifetime, gap)?.least())
}

impl Terms {
    pub fn new(
        send_window: u32,
        receive_window: u32,
        lifetime: u32,
        gap: u32,
        numbers: u32,
    ) -> Result<Terms, Refusal>
        ensures { MatchResult result (λ t. (t.send_window ≡ send_window) × (t.receive_window ≡ receive_window) × (t.lifetime ≡ lifetime) × (t.gap ≡ gap) × (t.numbers ≡ numbers)) (TermsRefused send_window receive_window lifetime gap numbers) }
    {
        let sizes = Sizes::new(send_window, receive_window, lifetime, gap)
            .filter(|_| (1..=65536).contains(&numbers))
            .ok_or(Refusal::TermOutOfRange)?;
        if numbers < sizes.least() {
            return Err(Refusal::TooFewNumbers);
        }
        Ok(Terms {
            send_window,
            receive_window,
            lifetime,
            gap,
            numbers,
        })
    }

    pub fn send_window(&self) -> u32
        ensures { result ≡ self.now.send_window }
    {
        self.send_window
    }

    pub fn receive_window(&self) -> u32
        ensures { result ≡ self.now.receive_window }
    {
        self.receive_window
    }

    pub fn lifetime(&self) -> u32
        ensures { result ≡ self.now.lifetime }
    {
        self.lifetime
    }

    pub fn gap(&self) -> u32
        ensures { result ≡ self.now.gap }
    {
        self.gap
    }

    pub fn numbers(&self) -> u32
        ensures { result ≡ self.now.numbers }
    {
        self.numbers
    }

    // K, the lifetime over the gap, rounded up.
    pub fn gaps(&self) -> u32
        ensures { RoundedUp self.now.lifetime self.now.gap result }
    {
        self.sizes().gaps()
    }

    // All but the count of numbers.
    fn sizes(&self) -> Sizes
        ensures { (result.lifetime ≡ self.now.lifetime) × (result.gap ≡ self.now.gap) }
    {
        let Terms {
            send_window,
            receive_window,
            lifetime,
            gap,
            ..
        } = *self;
        Sizes {
            send_window,
            receive_window,
            lifetime,
            gap,
        }
    }

    // The cyclic number of a whole number.
    pub fn cyclic(&self, number: u64) -> u16
        ensures { result ≡ number % self.now.numbers }
    {
        (number % u64::from(self.numbers)) as u16
    }
}
