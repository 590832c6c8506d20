//! A module's sections (sections 5.5.2 and 5.5.15), before what they hold is read.

ghost use Rattle.std.specs.Prelude.{◌≡◌, ◌==◌, if◌then◌else◌, slice_set, ◌<◌, List, Some};
ghost use Rattle.std.specs.Prelude.{MatchOption};
ghost use Rattle.wasm_syntax.specs.rules.Modules.{Section};
ghost use Rattle.wasm_decode.specs.Answers.{TakesAs};
ghost use Rattle.wasm_decode.specs.Sections.{may_come_behind, next_at, section_of, NoSections};
ghost use Rattle.wasm_decode.specs.Sections.{Splits};

use crate::items::{Decoder, ReadRefusal, Span, skip_name, take_sized};

/// How many kinds of sections there are.
pub const SECTION_IDS: usize = 12;

/// The id of custom sections.
const CUSTOM: u8 = 0;

/// The greatest id of a section.
const LAST: u8 = 11;

/// The bytes of each section by its id, and the first fault between sections.
#[derive(Drop)]
pub struct Sections<'a> {
    pub bodies: [Option<Span<'a>>; SECTION_IDS],
    pub fault: Option<ReadRefusal>,
}

/// Whether a section with this id may come after one of id `last`.
fn may_come_behind(last: u8, id: u8) -> bool
    ensures { result ≡ may_come_behind last id }
{
    id <= LAST && (id == CUSTOM || id > last)
}

/// The section at the front, by its id and its bytes. Its id is judged before its size is read.
#[tactic(auto, unfolding(crate::specs::Sections::next_at))]
fn next_section<'a>(decoder: &mut Decoder<'a>, last: u8) -> Result<(u8, Span<'a>), ReadRefusal>
    ensures { TakesAs (λ s. section_of s.0 s.1) result decoder.new (next_at last decoder.old) }
{
    let start = decoder.at();
    let Some(id) = decoder.byte() else {
        return Err(ReadRefusal::Malformed(start));
    };
    if !may_come_behind(last, id) {
        return Err(ReadRefusal::Malformed(start));
    }
    let body = take_sized(decoder)?.into_span();
    if id == CUSTOM && !skip_name(&mut Decoder::at_span(body)) {
        return Err(ReadRefusal::Malformed(body.at));
    }
    Ok((id, body))
}

/// Puts a section under its id, unless it is custom.
fn file<'a>(bodies: &mut [Option<Span<'a>>; SECTION_IDS], id: u8, body: Span<'a>)
    requires { id < 12 }
    ensures { bodies.new ≡ (if id == 0 then bodies.old
        else slice_set bodies.old id (Some body.entry)) }
{
    if id != CUSTOM {
        bodies[id as usize] = Some(body);
    }
}

/// The sections of all bytes, up to the first fault between them. What the sections hold comes
/// before that fault, and so is read first.
pub fn split<'a>(bytes: Decoder<'a>) -> Sections<'a>
    ensures { MatchOption result.fault ((ss : List Section)
        × Splits bytes.entry result.bodies ss) (λ _. NoSections 0 bytes.entry) }
{
    let mut rest = bytes;
    let mut last = 0;
    let mut bodies = [None; SECTION_IDS];
    while !rest.is_empty() {
        match next_section(&mut rest, last) {
            Ok((id, body)) => {
                file(&mut bodies, id, body);
                last = last.max(id);
            }
            Err(refusal) => {
                return Sections {
                    bodies,
                    fault: Some(refusal),
                };
            }
        }
    }
    Sections {
        bodies,
        fault: None,
    }
}
