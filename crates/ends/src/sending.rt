// The sender's steps, over its numbers alone.
ghost use Rattle.std.specs.Prelude.{◌≡◌, ◌+◌, ◌<◌, if◌then◌else◌, true, false, None};
ghost use Rattle.ends.specs.Numbers.{sends_of, new_sends, one_accepted, one_sent, rested, ahead, hearing, rise, outcome};
ghost use Rattle.ends.specs.Stops.{Checked, Stepped, accept_stop, block_stop, send_stop, resend_stop};

use crate::cyclic::ahead;
use crate::outcome::Outcome;
use crate::sender::Sender;
use wire::{Refusal, Terms};

impl Sender {
    // A sender that has done nothing may send at once.
    pub fn new(terms: Terms) -> Sender
        ensures numbers { sends_of result ≡ new_sends terms }
        ensures terms { result.terms ≡ terms }
    {
        Sender {
            terms,
            ng: 0,
            ns: 0,
            na: 0,
            sw: terms.send_window(),
            rest: terms.gap(),
            sealed: false,
        }
    }

    // Refuses an entry more where the store is full or the end mark was accepted.
    fn open(self) -> Result<(), Refusal>
        ensures { Checked (accept_stop self.terms (sends_of self) None) result }
    {
        if self.ng - self.na == u64::from(self.terms.send_window()) {
            return Err(Refusal::SenderStoreFull);
        }
        if self.sealed {
            return Err(Refusal::AlreadySealed);
        }
        Ok(())
    }

    // One entry more; the last one is the end mark, and whether it is the last is kept.
    fn accepted(mut self, last: bool) -> Sender
        requires { (self.ng < self.na + self.terms.send_window) × (self.ng < (if last then 1000001 else 1000000)) }
        ensures numbers { sends_of result ≡ one_accepted last (sends_of self) }
        ensures terms { result.terms ≡ self.terms }
    {
        self.ng += 1;
        self.sealed = last;
        self
    }

    // One block more.
    pub fn offer(self) -> Result<Sender, Refusal>
        ensures { Stepped self.terms (accept_stop self.terms (sends_of self) (block_stop (sends_of self) None)) (one_accepted false (sends_of self)) result }
    {
        self.open()?;
        if self.ng >= 1_000_000 {
            return Err(Refusal::PathFull);
        }
        Ok(self.accepted(false))
    }

    // The end mark, the last entry.
    pub fn seal(self) -> Result<Sender, Refusal>
        ensures { Stepped self.terms (accept_stop self.terms (sends_of self) None) (one_accepted true (sends_of self)) result }
    {
        self.open()?;
        Ok(self.accepted(true))
    }

    // Entry ns is sent for the first time, and the rest begins.
    pub fn send(mut self) -> Result<Sender, Refusal>
        ensures { Stepped self.terms (send_stop self.terms (sends_of self) None) (one_sent (sends_of self)) result }
    {
        if self.ns == self.ng {
            return Err(Refusal::NothingToSend);
        }
        if self.ns >= self.na + u64::from(self.sw) {
            return Err(Refusal::WindowClosed);
        }
        if self.rest < self.terms.gap() {
            return Err(Refusal::TooSoon);
        }
        self.ns += 1;
        self.rest = 0;
        Ok(self)
    }

    // Refuses an entry `j` past na that was not sent, or was heard of.
    pub fn outstanding(self, j: u64) -> Result<(), Refusal>
        ensures { Checked (resend_stop j (sends_of self) None) result }
    {
        if j >= self.ns - self.na {
            return Err(Refusal::NotOutstanding);
        }
        Ok(())
    }

    // How far a cyclic number lies past na.
    pub fn ahead(self, cyclic: u16) -> u64
        ensures { result ≡ ahead self.terms.numbers cyclic self.na }
    {
        ahead(self.terms, cyclic, self.na)
    }

    // How many entries an acknowledgement `far` past na tells of.
    pub fn rise(self, far: u64) -> u64
        ensures { result ≡ rise far (sends_of self) }
    {
        if far <= self.ns - self.na { far } else { 0 }
    }

    // An acknowledgement `far` past na with a window is heard; one past ns is not heeded.
    pub fn hear(&mut self, far: u64, window: u16)
        ensures numbers { sends_of self.new ≡ hearing self.old.terms.send_window far window (sends_of self.old) }
        ensures terms { self.new.terms ≡ self.old.terms }
    {
        let told = u32::from(window).min(self.terms.send_window());
        if far == 0 {
            self.sw = self.sw.max(told);
        } else if far <= self.ns - self.na {
            self.na += far;
            self.sw = told;
        }
    }

    // A tick passes: the rest grows up to the gap.
    pub fn rest(&mut self)
        ensures numbers { sends_of self.new ≡ rested self.old.terms.gap (sends_of self.old) }
        ensures terms { self.new.terms ≡ self.old.terms }
    {
        self.rest = (self.rest + 1).min(self.terms.gap());
    }

    // What the end of the path says.
    pub fn outcome(self) -> Outcome
        ensures { result ≡ outcome (sends_of self) }
    {
        if self.sealed && self.na == self.ng {
            return Outcome::Complete;
        }
        Outcome::Unsure {
            heard: self.na,
            sent: self.ns,
            accepted: self.ng,
        }
    }
}
