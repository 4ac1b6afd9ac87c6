//! Writing the parts of a line.
ghost use Rattle.std.specs.Prelude.{◌≡◌, [], ◌∷◌, ◌++◌, ◌+◌, ◌*◌, ◌<◌, ◌≤◌, length, decimal};
ghost use Rattle.mdb_model.specs.Text.{hex_digit, hex_digits, shown};
ghost use Rattle.dbm_script.specs.Printing.{numbers_then};

use crate::byte_strings::is_plain_byte;
use arrayvec::ArrayVec;

/// The text of a line. The longest is a row with the longest key and value in hexadecimal.
pub type LineBuf = ArrayVec<u8, 4096>;

/// Appends a text.
pub fn put(into: &mut LineBuf, text: &[u8])
    requires { length into.old.items + length text.now ≤ 4096 }
    ensures { into.new.items ≡ into.old.items ++ text.now }
{
    for byte in text {
        into.push(*byte);
    }
}

/// Appends the digits of a number.
pub fn put_decimal(into: &mut LineBuf, number: u64)
    requires { length into.old.items + 20 ≤ 4096 }
    ensures text { into.new.items ≡ into.old.items ++ decimal number }
    ensures len { length into.new.items ≤ length into.old.items + 20 }
{
    let mut digits = itoa::Buffer::new();
    put(into, digits.format(number).as_bytes());
}

/// Appends numbers, with a space in front of each.
pub fn put_numbers(into: &mut LineBuf, numbers: &[u64])
    requires { length into.old.items + 21 * length numbers.now ≤ 4096 }
    ensures text { into.new.items ≡ into.old.items ++ numbers_then numbers.now [] }
    ensures len { length into.new.items ≤ length into.old.items + 21 * length numbers.now }
{
    for number in numbers {
        into.push(b' ');
        put_decimal(into, *number);
    }
}

/// Appends a text, numbers, and the end of the line.
pub fn finish(into: &mut LineBuf, text: &[u8], numbers: &[u64])
    requires { length into.old.items + length text.now + 21 * length numbers.now < 4096 }
    ensures { into.new.items ≡ into.old.items ++ (text.now ++ numbers_then numbers.now (10 ∷ [])) }
{
    put(into, text);
    put_numbers(into, numbers);
    into.push(b'\n');
}

/// A text and numbers alone on a line.
pub fn line(into: &mut LineBuf, text: &[u8], numbers: &[u64])
    requires { length text.now + 21 * length numbers.now < 4096 }
    ensures { into.new.items ≡ text.now ++ numbers_then numbers.now (10 ∷ []) }
{
    into.clear();
    finish(into, text, numbers);
}

// A hexadecimal digit.
fn hexadecimal_digit(value: u8) -> u8
    requires { value < 16 }
    ensures { result ≡ hex_digit value }
{
    if value < 10 {
        value + b'0'
    } else {
        value - 10 + b'a'
    }
}

// Appends two digits for each byte.
fn put_digits(into: &mut LineBuf, bytes: &[u8])
    requires { length into.old.items + 2 * length bytes.now ≤ 4096 }
    ensures text { into.new.items ≡ into.old.items ++ hex_digits bytes.now }
    ensures len { length into.new.items ≡ length into.old.items + 2 * length bytes.now }
{
    for byte in bytes {
        into.push(hexadecimal_digit(*byte / 16));
        into.push(hexadecimal_digit(*byte % 16));
    }
}

/// Appends a byte string, between quotes where each byte may stand there.
pub fn put_bytes(into: &mut LineBuf, bytes: &[u8])
    requires { length into.old.items + 2 * length bytes.now + 3 ≤ 4096 }
    ensures text { into.new.items ≡ into.old.items ++ shown bytes.now }
    ensures len { length into.new.items ≤ length into.old.items + 2 * length bytes.now + 3 }
{
    if !bytes.iter().all(|byte| is_plain_byte(*byte)) {
        put(into, b"x'");
        put_digits(into, bytes);
        put(into, b"'");
        return;
    }
    put(into, b"'");
    put(into, bytes);
    put(into, b"'");
}
