//! The names of opcodes of floats, and of their types (sections 5.3.1 and 5.4).

ghost use Rattle.std.specs.Prelude.{◌≡◌};
ghost use Rattle.wasm_places.specs.Named.{AreFloatWords};
ghost use Rattle.wasm_places.specs.rules.Floats.{arithmetic_word, comparison_word, convert_word};
ghost use Rattle.wasm_places.specs.rules.Floats.{float_words, trunc_word};

/// A name in two parts: a type, and with a dot what is behind it, if there is more.
#[derive(Clone, Copy, Debug, PartialEq, Eq)]
pub struct FloatWords {
    pub value_type: &'static str,
    pub operation: &'static str,
}

/// A name of these two parts.
fn words(value_type: &'static str, operation: &'static str) -> Option<FloatWords>
    ensures { AreFloatWords result (Some (value_type.now, operation.now)) }
{
    Some(FloatWords {
        value_type,
        operation,
    })
}

/// A comparison, by its place among those of its type.
fn comparison_word(place: u8) -> &'static str
    ensures { result.now ≡ comparison_word place }
{
    match place {
        0 => ".eq",
        1 => ".ne",
        2 => ".lt",
        3 => ".gt",
        4 => ".le",
        _ => ".ge",
    }
}

/// An operator from one type to the same, by its place among those of its type.
fn arithmetic_word(place: u8) -> &'static str
    ensures { result.now ≡ arithmetic_word place }
{
    match place {
        0 => ".abs",
        1 => ".neg",
        2 => ".ceil",
        3 => ".floor",
        4 => ".trunc",
        5 => ".nearest",
        6 => ".sqrt",
        7 => ".add",
        8 => ".sub",
        9 => ".mul",
        10 => ".div",
        11 => ".min",
        12 => ".max",
        _ => ".copysign",
    }
}

/// A conversion to an integer, by its place among those of its type.
fn trunc_word(place: u8) -> &'static str
    ensures { result.now ≡ trunc_word place }
{
    match place {
        0 => ".trunc_f32_s",
        1 => ".trunc_f32_u",
        2 => ".trunc_f64_s",
        _ => ".trunc_f64_u",
    }
}

/// A conversion of an integer, by its place among those of its type.
fn convert_word(place: u8) -> &'static str
    ensures { result.now ≡ convert_word place }
{
    match place {
        0 => ".convert_i32_s",
        1 => ".convert_i32_u",
        2 => ".convert_i64_s",
        _ => ".convert_i64_u",
    }
}

/// The name of an opcode of floats, or of one of their types. No opcode of integers that `decode`
/// refuses has the byte of a type of floats.
pub fn float_words(byte: u8) -> Option<FloatWords>
    ensures { AreFloatWords result (float_words byte) }
{
    match byte {
        0x2a => words("f32", ".load"),
        0x2b => words("f64", ".load"),
        0x38 => words("f32", ".store"),
        0x39 => words("f64", ".store"),
        0x43 => words("f32", ".const"),
        0x44 => words("f64", ".const"),
        0x5b..=0x60 => words("f32", comparison_word(byte - 0x5b)),
        0x61..=0x66 => words("f64", comparison_word(byte - 0x61)),
        0x7c => words("f64", ""),
        0x7d => words("f32", ""),
        0x8b..=0x98 => words("f32", arithmetic_word(byte - 0x8b)),
        0x99..=0xa6 => words("f64", arithmetic_word(byte - 0x99)),
        0xa8..=0xab => words("i32", trunc_word(byte - 0xa8)),
        0xae..=0xb1 => words("i64", trunc_word(byte - 0xae)),
        0xb2..=0xb5 => words("f32", convert_word(byte - 0xb2)),
        0xb6 => words("f32", ".demote_f64"),
        0xb7..=0xba => words("f64", convert_word(byte - 0xb7)),
        0xbb => words("f64", ".promote_f32"),
        0xbc => words("i32", ".reinterpret_f32"),
        0xbd => words("i64", ".reinterpret_f64"),
        0xbe => words("f32", ".reinterpret_i32"),
        0xbf => words("f64", ".reinterpret_i64"),
        _ => None,
    }
}
