// The memory that the carriers of one path keep their frames in, and what carries the frames.
use carrier::{Shelf, Slot};
use two_way::TwoWay;
use word_log::Log;

#[derive(Drop)]
pub struct Memory {
    words: [u32; 64],
    out: [Slot; 16],
    near: [Slot; 2],
    far: [Slot; 14],
    back: [Slot; 16],
}

impl Memory {
    pub fn new() -> Memory {
        Memory {
            words: [0; 64],
            out: [Slot::EMPTY; 16],
            near: [Slot::EMPTY; 2],
            far: [Slot::EMPTY; 14],
            back: [Slot::EMPTY; 16],
        }
    }

    // A shelf each way.
    pub fn shelves(&mut self) -> (Shelf<'_>, Shelf<'_>) {
        let out = self.out.as_mut_slice();
        let back = self.back.as_mut_slice();
        (Shelf::new(out, 3), Shelf::new(back, 3))
    }

    // A log outward, and a two-way of two shelves back.
    pub fn log(&mut self) -> (Log<'_>, TwoWay<Shelf<'_>, Shelf<'_>>) {
        let words = self.words.as_mut_slice();
        let near = self.near.as_mut_slice();
        let far = self.far.as_mut_slice();
        let back = TwoWay::new(Shelf::new(near, 3), Shelf::new(far, 3));
        (Log::new(words, 3), back)
    }
}
