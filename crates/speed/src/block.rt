// The readings that are moved.
ghost use Rattle.std.specs.Prelude.{◌≡◌};

use wire::Reading;

// Reading i: its time is i, its value one that looks random.
pub fn block(i: u32) -> Reading
    ensures { result.time ≡ i }
{
    Reading {
        time: i,
        value: i.wrapping_mul(2_654_435_761).cast_signed(),
    }
}
