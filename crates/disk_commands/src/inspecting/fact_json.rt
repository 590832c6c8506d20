//! Facts as JSON: the members of one object.

ghost use Rattle.std.specs.Prelude.{◌≡◌, ◌++◌, [], ◌∷◌, IfOk, OnOk, codes, map};
ghost use Rattle.serde_json.specs.View.{view};
ghost use Rattle.serde_json.specs.Written.{compact_text};
ghost use Rattle.disk_commands.specs.FactViews.{fact_of, facts_of, field_of, scalar_of};
ghost use Rattle.disk_commands.specs.FactViews.{fact_value_of, values_of};
ghost use Rattle.disk_commands.specs.Members.{Puts};
ghost use Rattle.disk_commands.specs.rules.Facts.{fact_member, facts_data, field_member};
ghost use Rattle.disk_commands.specs.rules.Facts.{list_data, number_data, object_of};
ghost use Rattle.disk_commands.specs.rules.Facts.{scalar_data, text_data, value_data};

use crate::inspecting::fact::{Fact, FactValue, Field, Scalar};
use serde_json::{Map, Value, push, put};
use std::alloc::{AllocError, Global};
use std::{slice, str};

/// The members of an object, by their names.
type Members = Map<String, Value>;

/// The bytes of a text that isn't UTF-8.
fn bytes_value(alloc: Global, text: &[u8]) -> Result<Value, AllocError>
    ensures { IfOk result (λ value. view value ≡ list_data number_data text.now) }
{
    let mut bytes = Vec::new(alloc);
    for byte in text {
        push(&mut bytes, Value::from(*byte))?;
    }
    Ok(Value::Array(bytes))
}

/// A text: a string where it is UTF-8, and else its bytes.
fn text_value(alloc: Global, text: &[u8]) -> Result<Value, AllocError>
    ensures { IfOk result (λ value. view value ≡ text_data text.now) }
{
    match str::from_utf8(text) {
        Ok(text) => Value::try_from_str(alloc, text),
        Err(_) => bytes_value(alloc, text),
    }
}

/// A scalar.
fn scalar_value(alloc: Global, scalar: &Scalar) -> Result<Value, AllocError>
    ensures { IfOk result (λ value. view value ≡ scalar_data (scalar_of scalar.now)) }
{
    match scalar {
        Scalar::Number(number) => Ok(Value::from(*number)),
        Scalar::Word(word) => Value::try_from_str(alloc, word),
        Scalar::Text(text) => text_value(alloc, text),
    }
}

/// One object of named scalars.
fn fields_value(alloc: Global, fields: &[Field]) -> Result<Value, AllocError>
    ensures { IfOk result (λ value. view value
        ≡ object_of (map field_member (map field_of fields.now))) }
{
    let mut members = Map::new(alloc);
    for field in fields {
        let value = scalar_value(alloc, &field.scalar)?;
        put(&mut members, alloc, field.name, value)?;
    }
    Ok(Value::Object(members))
}

/// The value of a fact.
fn json_value(alloc: Global, value: &FactValue) -> Result<Value, AllocError>
    ensures { IfOk result (λ json. view json ≡ value_data (fact_value_of value.now)) }
{
    match value {
        FactValue::Plain(scalar) => scalar_value(alloc, scalar),
        FactValue::Tagged(field) => fields_value(alloc, slice::from_ref(field)),
        FactValue::Fields(fields) => fields_value(alloc, fields.as_slice()),
    }
}

/// A list of values.
fn list_value(alloc: Global, values: &[FactValue]) -> Result<Value, AllocError>
    ensures { IfOk result (λ json. view json ≡ list_data value_data (values_of values.now)) }
{
    let mut list = Vec::new(alloc);
    for value in values {
        push(&mut list, json_value(alloc, value)?)?;
    }
    Ok(Value::Array(list))
}

/// Puts a fact.
fn put_fact(members: &mut Members, alloc: Global, fact: &Fact) -> Result<(), AllocError>
    ensures { OnOk result (Puts members.old.entries members.new.entries
        (fact_member (fact_of fact.now) ∷ [])) }
{
    match fact {
        Fact::Single { name, value } => put(members, alloc, name, json_value(alloc, value)?),
        Fact::Listed { all, values, .. } => {
            put(members, alloc, all, list_value(alloc, values.as_slice())?)
        }
    }
}

/// Puts facts.
fn put_facts(members: &mut Members, alloc: Global, facts: &[Fact]) -> Result<(), AllocError>
    ensures { OnOk result (Puts members.old.entries members.new.entries
        (map fact_member (facts_of facts.now))) }
{
    for fact in facts {
        put_fact(members, alloc, fact)?;
    }
    Ok(())
}

/// The text of one object of facts, on a line.
pub(super) fn json_of_facts(alloc: Global, facts: &[Fact]) -> Result<Vec<u8>, AllocError>
    ensures { IfOk result (λ text. text.items
        ≡ compact_text (facts_data (facts_of facts.now)) ++ codes "\n") }
{
    let mut members = Map::new(alloc);
    put_facts(&mut members, alloc, facts)?;
    let mut text = Value::Object(members).to_vec(alloc)?;
    text.push(b'\n')?;
    Ok(text)
}
