// Windows made from sizes, and their place in a head.
ghost use Rattle.std.specs.Prelude.{◌≡◌, ℕ, ◌+◌, ◌*◌, ◌^◌, ◌<◌, min};
ghost use Rattle.wire.specs.Windows.{middle_of, window_of};

use crate::window::Window;

impl Window {
    // A window of this size, or the widest one where that is narrower.
    pub fn new(size: u16) -> Window
        ensures { result.size ≡ min size 16383 }
    {
        Window {
            size: u32::from(size.min(0x3fff)),
        }
    }

    pub fn size(self) -> u16
        ensures { result ≡ self.size }
    {
        self.size as u16
    }

    // The window in bits 29 to 16 of a head.
    pub(crate) fn of_head(head: u32) -> Window
        ensures value { result ≡ window_of head }
        ensures size { result.size ≡ middle_of head }
    {
        Window {
            size: head % 0x4000_0000 / 0x1_0000,
        }
    }

    // The window in its place in a head.
    pub(crate) fn in_head(self) -> u32
        ensures value { result ≡ self.size * 2 ^ 16 }
        ensures back { (n : ℕ) → n < 2 ^ 16 → window_of (2 * 2 ^ 30 + self.size * 2 ^ 16 + n) ≡ self }
    {
        self.size * 0x1_0000
    }
}
