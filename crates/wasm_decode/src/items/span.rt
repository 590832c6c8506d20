//! Where bytes are.

ghost use Rattle.std.specs.Prelude.{◌+◌, ◌^◌, ◌<◌, length};

/// Some of the bytes, and the offset of the first of them in all bytes.
#[derive(Clone, Copy)]
pub struct Span<'a> {
    pub bytes: &'a [u8],
    pub at: usize,
    pub ghost within: { at + length bytes.now < 2 ^ 64 },
}
