//! Byte strings, between quotes or in hexadecimal, which stay where they are in the line.
ghost use Rattle.std.specs.Prelude.{◌≡◌, ◌≢◌, ℕ, List, [], ◌∷◌, ◌++◌, ◌+◌, ◌*◌, ◌<◌, ◌≤◌, Some, None, Option, true, IsTrue, MatchOption, MatchResult, length, option_map, ◌⊎◌};
ghost use Rattle.std.specs.List.{list_all};
ghost use Rattle.mdb_model.specs.Script.{Bytes, SpellsPart, is_plain, is_key, is_value, hex_value, hex_bytes};
ghost use Rattle.dbm_script.specs.declared.fault.LineFault.TheVariants.{Syntax, Memory};
ghost use Rattle.dbm_script.specs.Cutting.{first_text, rest_after};
ghost use Rattle.dbm_script.specs.Spelling.{is_hex_digit, bytes_spelled, IsSpelled};

use crate::cutting::cut;
use crate::fault::LineFault;
use mdb_model::bytes::{Key, Value, ValueBuf};
use std::alloc::Global;
use std::marker::Model;

/// A byte string as it stands in a line: the text between its quotes, or its pairs of hexadecimal
/// digits. Its value is the bytes that it spells, no more than a value may have.
#[derive(Drop)]
pub struct ByteString<'a> {
    text: &'a [u8],
    in_digits: bool,
}

impl<'a> Model for ByteString<'a> {
    ghost use Rattle.std.specs.Prelude.{List, ℕ};
    ghost use Rattle.dbm_script.specs.Spelling.{bytes_spelled, IsSpelled};

    ghost Value = { List ℕ };

    ghost view = { λ string. bytes_spelled string.in_digits string.text.now };

    ghost invariant = { λ string. IsSpelled string.in_digits string.text.now };
}

impl<'a> ByteString<'a> {
    // How many bytes it spells.
    fn len(&self) -> usize
        ensures { result ≡ length self.now }
    {
        if self.in_digits {
            self.text.len() / 2
        } else {
            self.text.len()
        }
    }
}

/// A byte that stands for itself between quotes.
pub fn is_plain_byte(byte: u8) -> bool
    ensures { result ≡ is_plain byte }
{
    (b' '..=b'~').contains(&byte) && byte != b'\''
}

// A hexadecimal digit.
fn is_hexadecimal(byte: u8) -> bool
    ensures { result ≡ is_hex_digit byte }
{
    byte.is_ascii_hexdigit()
}

// The text between quotes, where each byte stands for itself.
fn quoted(text: &[u8]) -> Option<ByteString<'_>>
    ensures { MatchOption result (length text.now ≤ 1500 → IsTrue (list_all is_plain text.now)
        → ⊥) (λ bytes. IsTrue (list_all is_plain text.now) × (bytes ≡ text.now)
        × IsTrue (is_value bytes)) }
{
    if text.len() > 1500 || !text.iter().all(|byte| is_plain_byte(*byte)) {
        return None;
    }
    Some(ByteString {
        text,
        in_digits: false,
    })
}

// The text of pairs of digits.
fn paired(text: &[u8]) -> Option<ByteString<'_>>
    ensures { MatchOption result ((bytes : List ℕ) → length bytes ≤ 1500
        → hex_bytes text.now ≢ Some bytes)
        (λ bytes. (hex_bytes text.now ≡ Some bytes) × IsTrue (is_value bytes)) }
{
    if text.len() > 3000 || text.len() % 2 != 0 || !text.iter().all(|byte| is_hexadecimal(*byte)) {
        return None;
    }
    Some(ByteString {
        text,
        in_digits: true,
    })
}

// What stands between these bytes in front and a quote at the end.
fn between<'a>(text: &'a [u8], front: &[u8]) -> Option<&'a [u8]>
    ensures { MatchOption result ((inner : List ℕ)
        → text.now ≢ front.now ++ (inner ++ 39 ∷ [])) (λ r. text.now ≡ front.now
        ++ (r.now ++ 39 ∷ [])) }
{
    let Some(rest) = text.strip_prefix(front) else {
        return None;
    };
    rest.strip_suffix(b"'")
}

// The byte string that the text is, where it spells no more than a value may have.
fn byte_string(text: &[u8]) -> Option<ByteString<'_>>
    ensures { MatchOption result ((bytes : List ℕ) → length bytes ≤ 1500
        → SpellsPart (Bytes bytes) text.now → ⊥)
        (λ bytes. SpellsPart (Bytes bytes) text.now × IsTrue (is_value bytes)) }
{
    if let Some(inner) = between(text, b"'") {
        return quoted(inner);
    }
    let digits = between(text, b"x'")?;
    paired(digits)
}

/// A key, and what follows it.
pub fn key(rest: &[u8]) -> Result<(ByteString<'_>, &[u8]), LineFault>
    ensures { MatchResult result (λ r. IsTrue (is_key r.0)
        × SpellsPart (Bytes r.0) (first_text rest.now) × (r.1.now ≡ rest_after rest.now))
        (λ e. (e ≡ Syntax) × ((bytes : List ℕ) → IsTrue (is_key bytes)
        → SpellsPart (Bytes bytes) (first_text rest.now) → ⊥)) }
{
    let (text, rest) = cut(rest);
    match byte_string(text) {
        Some(bytes) if (1..=256).contains(&bytes.len()) => Ok((bytes, rest)),
        _ => Err(LineFault::Syntax),
    }
}

/// A value, and what follows it.
pub fn value(rest: &[u8]) -> Result<(ByteString<'_>, &[u8]), LineFault>
    ensures { MatchResult result (λ r. IsTrue (is_value r.0)
        × SpellsPart (Bytes r.0) (first_text rest.now) × (r.1.now ≡ rest_after rest.now))
        (λ e. (e ≡ Syntax) × ((bytes : List ℕ) → IsTrue (is_value bytes)
        → SpellsPart (Bytes bytes) (first_text rest.now) → ⊥)) }
{
    let (text, rest) = cut(rest);
    match byte_string(text) {
        Some(bytes) => Ok((bytes, rest)),
        None => Err(LineFault::Syntax),
    }
}

// The value of a hexadecimal digit.
fn digit_value(digit: u8) -> u8
    requires { IsTrue (is_hex_digit digit) }
    ensures value { hex_value digit ≡ Some result }
    ensures small { result < 16 }
{
    match digit {
        b'0'..=b'9' => digit - b'0',
        b'A'..=b'F' => digit - b'A' + 10,
        _ => digit - b'a' + 10,
    }
}

// Reads the bytes that pairs of digits stand for into an empty buffer.
fn decode(digits: &[u8], into: &mut ValueBuf)
    requires spelled { IsSpelled true digits.now }
    requires empty { into.old.items ≡ [] }
    ensures { hex_bytes digits.now ≡ Some into.new.items }
{
    for i in 0..digits.len() / 2 {
        into.push(16 * digit_value(digits[2 * i]) + digit_value(digits[2 * i + 1]));
    }
}

// The key in memory of its own.
fn new_key(alloc: Global, bytes: &[u8]) -> Result<Key, LineFault>
    requires { IsTrue (is_key bytes.now) }
    ensures { MatchResult result (λ key. key ≡ bytes.now) (λ e. e ≡ Memory) }
{
    match Key::new(alloc, bytes) {
        Ok(key) => Ok(key),
        Err(_) => Err(LineFault::Memory),
    }
}

// The value in memory of its own.
fn new_value(alloc: Global, bytes: &[u8]) -> Result<Value, LineFault>
    requires { IsTrue (is_value bytes.now) }
    ensures { MatchResult result (λ value. value ≡ bytes.now) (λ e. e ≡ Memory) }
{
    match Value::new(alloc, bytes) {
        Ok(value) => Ok(value),
        Err(_) => Err(LineFault::Memory),
    }
}

// The key that digits spell. The buffer is on this path alone.
fn decoded_key(alloc: Global, digits: &[u8]) -> Result<Key, LineFault>
    requires spelled { IsSpelled true digits.now }
    requires key { IsTrue (is_key (bytes_spelled true digits.now)) }
    ensures { MatchResult result (λ key. key ≡ bytes_spelled true digits.now) (λ e. e ≡ Memory) }
{
    let mut bytes = ValueBuf::new();
    decode(digits, &mut bytes);
    new_key(alloc, bytes.as_slice())
}

// The value that digits spell. The buffer is on this path alone.
fn decoded_value(alloc: Global, digits: &[u8]) -> Result<Value, LineFault>
    requires { IsSpelled true digits.now }
    ensures { MatchResult result (λ value. value ≡ bytes_spelled true digits.now)
        (λ e. e ≡ Memory) }
{
    let mut bytes = ValueBuf::new();
    decode(digits, &mut bytes);
    new_value(alloc, bytes.as_slice())
}

/// The key that a byte string spells, in memory of its own.
pub fn kept_key(alloc: Global, bytes: &ByteString<'_>) -> Result<Key, LineFault>
    requires { IsTrue (is_key bytes.now) }
    ensures { MatchResult result (λ key. key ≡ bytes.now) (λ e. e ≡ Memory) }
{
    if bytes.in_digits {
        return decoded_key(alloc, bytes.text);
    }
    new_key(alloc, bytes.text)
}

/// The value that a byte string spells, in memory of its own.
pub fn kept_value(alloc: Global, bytes: &ByteString<'_>) -> Result<Value, LineFault>
    ensures { MatchResult result (λ value. value ≡ bytes.now) (λ e. e ≡ Memory) }
{
    if bytes.in_digits {
        return decoded_value(alloc, bytes.text);
    }
    new_value(alloc, bytes.text)
}
