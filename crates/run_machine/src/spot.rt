//! A scalar in a buffer.

ghost use Rattle.std.specs.Prelude.{◌<◌, ◌^◌};

/// One scalar of a buffer: the buffer's number, the offset in bytes and the width in bits. The offset may
/// be past the buffer's end.
#[derive(Clone, Copy)]
pub struct Spot {
    pub buffer: u32,
    pub offset: u128,
    pub bits: u32,
    pub ghost is_small: { offset < 2 ^ 100 },
}
