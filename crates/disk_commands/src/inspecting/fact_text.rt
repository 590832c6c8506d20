//! Facts as text: one a line, a name and its value.

ghost use Rattle.std.specs.Prelude.{◌≡◌, IfOk, OnOk, map};
ghost use Rattle.std.specs.Io.KnownBytes.{Appends};
ghost use Rattle.std.specs.List.{flat_map};
ghost use Rattle.disk_commands.specs.FactViews.{fact_of, facts_of, field_of, scalar_of};
ghost use Rattle.disk_commands.specs.FactViews.{fact_value_of, values_of};
ghost use Rattle.disk_commands.specs.rules.Facts.{Fields, fact_line, fact_text, facts_text};
ghost use Rattle.disk_commands.specs.rules.Facts.{spaced, value_text};

use crate::inspecting::fact::{Fact, FactValue, Field, Scalar};
use std::alloc::Global;
use std::io::{self, Write};

/// Spells a scalar after a space.
fn spell_scalar<W: Write>(out: &mut W, scalar: &Scalar) -> io::Result<()>
    ensures { OnOk result (Appends (W.contents out.old) (W.contents out.new)
        (spaced (scalar_of scalar.now))) }
{
    match scalar {
        Scalar::Number(number) => write!(out, " {number}"),
        Scalar::Word(word) => write!(out, " {word}"),
        Scalar::Text(text) => {
            out.write_all(b" ")?;
            out.write_all(text)
        }
    }
}

/// Spells the named parts of a value, without their names.
fn spell_fields<W: Write>(out: &mut W, fields: &[Field]) -> io::Result<()>
    ensures { OnOk result (Appends (W.contents out.old) (W.contents out.new)
        (value_text (Fields (map field_of fields.now)))) }
{
    for field in fields {
        spell_scalar(out, &field.scalar)?;
    }
    Ok(())
}

/// Spells a value.
fn spell_value<W: Write>(out: &mut W, value: &FactValue) -> io::Result<()>
    ensures { OnOk result (Appends (W.contents out.old) (W.contents out.new)
        (value_text (fact_value_of value.now))) }
{
    match value {
        FactValue::Plain(scalar) => spell_scalar(out, scalar),
        FactValue::Tagged(field) => {
            write!(out, " {}", field.name)?;
            spell_scalar(out, &field.scalar)
        }
        FactValue::Fields(fields) => spell_fields(out, fields.as_slice()),
    }
}

/// Spells a name and a value, on a line.
fn spell_line<W: Write>(out: &mut W, name: &str, value: &FactValue) -> io::Result<()>
    ensures { OnOk result (Appends (W.contents out.old) (W.contents out.new)
        (fact_line name.now (fact_value_of value.now))) }
{
    out.write_all(name.as_bytes())?;
    spell_value(out, value)?;
    out.write_all(b"\n")
}

/// Spells values, each on a line after the same name.
fn spell_lines<W: Write>(out: &mut W, name: &str, values: &[FactValue]) -> io::Result<()>
    ensures { OnOk result (Appends (W.contents out.old) (W.contents out.new)
        (flat_map (fact_line name.now) (values_of values.now))) }
{
    for value in values {
        spell_line(out, name, value)?;
    }
    Ok(())
}

/// Spells a fact.
fn spell_fact<W: Write>(out: &mut W, fact: &Fact) -> io::Result<()>
    ensures { OnOk result (Appends (W.contents out.old) (W.contents out.new)
        (fact_text (fact_of fact.now))) }
{
    match fact {
        Fact::Single { name, value } => spell_line(out, name, value),
        Fact::Listed { each, values, .. } => spell_lines(out, each, values.as_slice()),
    }
}

/// Spells facts.
fn spell_facts<W: Write>(out: &mut W, facts: &[Fact]) -> io::Result<()>
    ensures { OnOk result (Appends (W.contents out.old) (W.contents out.new)
        (facts_text (facts_of facts.now))) }
{
    for fact in facts {
        spell_fact(out, fact)?;
    }
    Ok(())
}

/// The text of facts.
pub(super) fn text_of_facts(alloc: Global, facts: &[Fact]) -> io::Result<Vec<u8>>
    ensures { IfOk result (λ text. text.items ≡ facts_text (facts_of facts.now)) }
{
    let mut text = Vec::new(alloc);
    spell_facts(&mut text, facts)?;
    Ok(text)
}
