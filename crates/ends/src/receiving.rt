// The receiver's steps, over its numbers alone.
ghost use Rattle.std.specs.Prelude.{◌≡◌, ◌+◌, ◌-◌, ◌≤◌, min, max, None};
ghost use Rattle.ends.specs.Numbers.{gets_of, ahead, ReadAs};
ghost use Rattle.ends.specs.Stops.{Checked, deliver_stop};

use crate::cyclic::ahead;
use crate::receiver::Receiver;
use wire::{Refusal, Terms};

impl Receiver {
    pub fn new(terms: Terms) -> Receiver
        ensures nr { result.nr ≡ 0 }
        ensures nd { result.nd ≡ 0 }
        ensures terms { result.terms ≡ terms }
    {
        Receiver {
            terms,
            nr: 0,
            nd: 0,
        }
    }

    // rw, how many entries past nr there is room for.
    pub fn room(self) -> u16
        ensures value { result ≡ self.terms.receive_window + self.nd - self.nr }
        ensures bound { result ≤ 4096 }
    {
        (u64::from(self.terms.receive_window()) + self.nd - self.nr) as u16
    }

    // Where nr has to stop: at a place that is not yet delivered, and past a million blocks and their end mark.
    pub fn limit(self) -> u64
        ensures value { result ≡ min (self.nd + self.terms.receive_window) 1000001 }
        ensures above { self.nr ≤ result }
    {
        (self.nd + u64::from(self.terms.receive_window())).min(1_000_001)
    }

    // The whole number that a cyclic one is read under; none where there is no room for it.
    pub fn number(self, cyclic: u16) -> Option<u64>
        ensures { ReadAs (ahead self.terms.numbers cyclic self.nr) (self.terms.receive_window + self.nd - self.nr) self.nr result }
    {
        let far = ahead(self.terms, cyclic, self.nr);
        (far < u64::from(self.room())).then_some(self.nr + far)
    }

    // nr goes up to a number, never down and never past its limit.
    pub fn rise(&mut self, nr: u64)
        ensures nr { self.new.nr ≡ min (max self.old.nr nr) (min (self.old.nd + self.old.terms.receive_window) 1000001) }
        ensures nd { self.new.nd ≡ self.old.nd }
        ensures terms { self.new.terms ≡ self.old.terms }
    {
        self.nr = self.nr.max(nr).min(self.limit());
    }

    // Refuses where every entry in sequence was delivered.
    pub fn due(self) -> Result<(), Refusal>
        ensures { Checked (deliver_stop (gets_of self) None) result }
    {
        if self.nd == self.nr {
            return Err(Refusal::NothingToDeliver);
        }
        Ok(())
    }

    // Entry nd is delivered, if it is in sequence.
    pub fn deliver(&mut self)
        ensures nd { self.new.nd ≡ min (self.old.nd + 1) self.old.nr }
        ensures nr { self.new.nr ≡ self.old.nr }
        ensures terms { self.new.terms ≡ self.old.terms }
    {
        if self.nd < self.nr {
            self.nd += 1;
        }
    }
}
