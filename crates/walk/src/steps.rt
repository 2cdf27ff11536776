// How a walk over a carrier begins and goes on: the members say which frames are left.
ghost use Rattle.std.specs.Prelude.{◌≡◌};
ghost use Rattle.std.specs.Iterator.{YieldsFirst, item_count};
ghost use Rattle.walk.specs.Frames.{frames_left};

use crate::Frames;
use carrier::Carrier;
use wire::Frame;

impl<'a, C: Carrier> Frames<'a, C> {
    pub fn of(carrier: &'a C) -> Frames<'a, C>
        ensures { frames_left C.Carrier result ≡ C.Carrier.list carrier.now }
    {
        Frames {
            carrier,
            next: 0,
            end: carrier.count(),
        }
    }
}

impl<C: Carrier> Iterator for Frames<'_, C> {
    type Item = (Frame, u32);

    ghost next_gives = { YieldsFirst (frames_left C.Carrier) };

    ghost remaining = { item_count (frames_left C.Carrier) };

    fn next(&mut self) -> Option<(Frame, u32)> {
        if self.next >= self.end {
            return None;
        }
        let Ok(shown) = self.carrier.show(self.next) else {
            return None;
        };
        self.next += 1;
        Some(shown)
    }
}
