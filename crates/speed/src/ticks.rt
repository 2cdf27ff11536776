// What ticks cost where many frames are held.
use crate::sum::Sum;
use carrier::Carrier;
use wire::{Content, Reading};

pub fn hold<C: Carrier + Drop>(mut carrier: C, held: u16, sum: &mut Sum) {
    for i in 0..held {
        let mark = Content::<Reading>::EndMark { number: i };
        let _ = carrier.put(mark.write());
    }
    for _ in 0..1000 {
        carrier.tick();
    }
    sum.take(u64::from(carrier.count()));
    if let Ok((_, age)) = carrier.show(0) {
        sum.take(u64::from(age));
    }
}
