//! Bytes cut in two, and lines of a text.
//!
//! # Promises
//!
//! - `split_once`, `cut_line`: what is before and after a separator, and the first line of a text
//!   (`lines_of`). `digest_digits`: the digits of the SHA-256 of bytes. `spell_line`: a line as it
//!   is printed. `say_text`: the text was written and the status is `Done`, or a write has failed
//!   and it is `Unwritten`.

ghost use Rattle.std.specs.Prelude.{◌≡◌, ◌≢◌, [], ◌∷◌, ◌<◌, length, option_copied};
ghost use Rattle.command_words.specs.rules.Pieces.{lines_of, split_once};

/// The bytes before the first `separator`, and those after it if there is one.
pub fn split_once(bytes: &[u8], separator: u8) -> (&[u8], Option<&[u8]>)
    ensures before { result.0.now ≡ (split_once separator bytes.now).0 }
    ensures after { option_copied result.1 ≡ (split_once separator bytes.now).1 }
{
    match bytes.iter().position(|&byte| byte == separator) {
        Some(i) => (&bytes[..i], Some(&bytes[i + 1..])),
        None => (bytes, None),
    }
}

/// The line in front, and what is after its newline.
pub fn cut_line(text: &[u8]) -> (&[u8], &[u8])
    requires { text.now ≢ [] }
    ensures line { lines_of text.now ≡ result.0.now ∷ lines_of result.1.now }
    ensures shorter { length result.1.now < length text.now }
{
    let (line, behind) = split_once(text, b'\n');
    (line, behind.unwrap_or(b""))
}
