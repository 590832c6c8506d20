//! Numbers and texts, pushed into a sink. Numbers go the lowest byte first.

ghost use Rattle.std.specs.Prelude.{[], ◌∷◌};
ghost use Rattle.wasi_abi.specs.rules.Layouts.{u16_bytes, u32_bytes, u64_bytes};
ghost use Rattle.state_image.specs.rules.ProcessImage.{text_bytes, items_bytes};
ghost use Rattle.state_image.specs.rules.Sinks.{Pushes};

use crate::sink::Sink;

pub(crate) fn push_bytes<S: Sink>(bytes: &[u8], sink: &mut S) -> Result<(), S::Fault>
    ensures { Pushes S.takes sink.old bytes.now result sink.new }
{
    sink.push(bytes)
}

pub(crate) fn push_u8<S: Sink>(number: u8, sink: &mut S) -> Result<(), S::Fault>
    ensures { Pushes S.takes sink.old (number ∷ []) result sink.new }
{
    push_bytes(&[number], sink)
}

pub(crate) fn push_u16<S: Sink>(number: u16, sink: &mut S) -> Result<(), S::Fault>
    ensures { Pushes S.takes sink.old (u16_bytes number) result sink.new }
{
    push_bytes(&number.to_le_bytes(), sink)
}

pub(crate) fn push_u32<S: Sink>(number: u32, sink: &mut S) -> Result<(), S::Fault>
    ensures { Pushes S.takes sink.old (u32_bytes number) result sink.new }
{
    push_bytes(&number.to_le_bytes(), sink)
}

pub(crate) fn push_u64<S: Sink>(number: u64, sink: &mut S) -> Result<(), S::Fault>
    ensures { Pushes S.takes sink.old (u64_bytes number) result sink.new }
{
    push_bytes(&number.to_le_bytes(), sink)
}

/// The lowest 2 bytes of a length.
pub(crate) fn push_short_length<S: Sink>(length: usize, sink: &mut S) -> Result<(), S::Fault>
    ensures { Pushes S.takes sink.old (u16_bytes length) result sink.new }
{
    push_bytes(&length.to_le_bytes()[..2], sink)
}

/// The lowest 4 bytes of a count or a place.
pub(crate) fn push_count<S: Sink>(count: usize, sink: &mut S) -> Result<(), S::Fault>
    ensures { Pushes S.takes sink.old (u32_bytes count) result sink.new }
{
    push_bytes(&count.to_le_bytes()[..4], sink)
}

/// The length of a text, and its bytes.
pub(crate) fn push_text<S: Sink>(text: &[u8], sink: &mut S) -> Result<(), S::Fault>
    ensures { Pushes S.takes sink.old (text_bytes text.now) result sink.new }
{
    push_count(text.len(), sink)?;
    push_bytes(text, sink)
}

/// How many words there are, and each of them.
pub(crate) fn push_words<S: Sink>(words: &[u64], sink: &mut S) -> Result<(), S::Fault>
    ensures { Pushes S.takes sink.old (items_bytes u64_bytes words.now) result sink.new }
{
    push_count(words.len(), sink)?;
    for word in words {
        push_u64(*word, sink)?;
    }
    Ok(())
}
