//! The section in which a byte of a module lies (sections 5.5.2 and 5.5.15).

ghost use Rattle.std.specs.Prelude.{◌≡◌, MatchOption};
ghost use Rattle.wasm_decode.specs.Items.Answers.{FindsItem};
ghost use Rattle.wasm_places.specs.Answers.{FindsAs};
ghost use Rattle.wasm_places.specs.Around.{IsAround, LiesInNone, first_part, section_with};
ghost use Rattle.wasm_places.specs.Uses.{HoldsFunctionSections, LacksSections};
ghost use Rattle.wasm_syntax.specs.laws.ReadingItems.{fixed_at};
ghost use Rattle.wasm_syntax.specs.laws.ReadingModules.{section_at};
ghost use Rattle.wasm_syntax.specs.rules.Modules.{preamble};

use crate::reader::{Part, Reader};

/// The id of the section of imports.
const IMPORTS: u8 = 2;

/// The id of the section with the types of a module's own functions.
const FUNCTION_TYPES: u8 = 3;

/// The section in which a byte lies.
#[derive(Clone, Copy)]
pub struct Around<'a> {
    pub id: u8,
    pub body: Part<'a>,
    /// How many bytes of it are left from that byte on.
    pub left: usize,
    /// The section of imports, if there is one before.
    pub imports: Option<Part<'a>>,
}

/// The sections that say which functions a module has.
#[derive(Clone, Copy)]
pub struct FunctionSections<'a> {
    /// The section of imports, if there is one.
    pub imports: Option<Part<'a>>,
    /// The section with the types of the module's own functions, if there is one.
    pub function_types: Option<Part<'a>>,
}

/// The mark and the version are passed over.
#[tactic(auto, unfolding(wasm_syntax::specs::laws::ReadingItems::fixed_at))]
pub fn header(reader: &mut Reader) -> Option<()>
    ensures { FindsItem result reader.new (fixed_at preamble reader.old) }
{
    reader.expect_byte(0x00)?;
    reader.expect_byte(0x61)?;
    reader.expect_byte(0x73)?;
    reader.expect_byte(0x6d)?;
    reader.expect_byte(0x01)?;
    reader.expect_byte(0x00)?;
    reader.expect_byte(0x00)?;
    reader.expect_byte(0x00)
}

/// The section at the front, by its id and its bytes.
#[tactic(auto, unfolding(wasm_syntax::specs::laws::ReadingModules::section_at))]
pub fn section<'a>(reader: &mut Reader<'a>) -> Option<(u8, Part<'a>)>
    ensures { FindsAs (λ s. section_with s.0 s.1) result reader.new (section_at reader.old) }
{
    let id = reader.byte()?;
    let body = reader.bytes()?.into_part();
    Some((id, body))
}

/// The first section with the wanted id, of those before and this one.
fn first_part<'a>(wanted: u8, before: Option<Part<'a>>, id: u8, body: Part<'a>) -> Option<Part<'a>>
    ensures { result ≡ first_part wanted before.entry id body.entry }
{
    match before {
        Some(part) => Some(part),
        None if id == wanted => Some(body),
        None => None,
    }
}

/// The section in which the byte at an offset lies.
pub fn section_around(module: &[u8], at: usize) -> Option<Around<'_>>
    ensures { MatchOption result (LiesInNone module.now at) (IsAround module.now at) }
{
    let mut rest = Reader::new(module);
    header(&mut rest)?;
    let left = module.len().checked_sub(at)?;
    if rest.len() < left {
        return None;
    }
    let mut imports = None;
    while let Some((id, body)) = section(&mut rest) {
        if rest.len() < left {
            let left = left - rest.len();
            return Some(Around {
                id,
                body,
                left,
                imports,
            });
        }
        imports = first_part(IMPORTS, imports, id, body);
    }
    None
}

/// The sections that say which functions a module has, where all behind the header is sections.
pub fn function_sections(module: &[u8]) -> Option<FunctionSections<'_>>
    ensures { MatchOption result (LacksSections module.now) (HoldsFunctionSections module.now) }
{
    let mut rest = Reader::new(module);
    header(&mut rest)?;
    let mut imports = None;
    let mut function_types = None;
    while !rest.is_empty() {
        let (id, body) = section(&mut rest)?;
        imports = first_part(IMPORTS, imports, id, body);
        function_types = first_part(FUNCTION_TYPES, function_types, id, body);
    }
    Some(FunctionSections {
        imports,
        function_types,
    })
}
