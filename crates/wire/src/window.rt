// A window as an acknowledgement carries it: a count of entries in 14 bits.
ghost use Rattle.std.specs.Prelude.{◌^◌, ◌<◌};

#[derive(Clone, Copy)]
pub struct Window {
    pub(crate) size: u32,
    ghost narrow: { size < 2 ^ 14 },
}
