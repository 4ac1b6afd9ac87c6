//! Numbers in decimal digits.
ghost use Rattle.std.specs.Prelude.{◌≡◌, ◌≢◌, ℕ, ◌+◌, ◌-◌, ◌*◌, ◌^◌, ◌<◌, ◌≤◌, Some, IsTrue, MatchOption, MatchResult};
ghost use Rattle.mdb_model.specs.Script.{is_digit, is_within, is_number, is_session, is_table, is_medium, number_of};
ghost use Rattle.dbm_script.specs.declared.fault.LineFault.TheVariants.{Syntax};
ghost use Rattle.dbm_script.specs.Cutting.{first_text, rest_after};

use crate::cutting::cut;
use crate::fault::LineFault;
use mdb_model::name::{Session, Table};

// The number with one more digit.
fn with_digit(number: u64, digit: u8) -> Option<u64>
    ensures { MatchOption result (IsTrue (is_digit digit)
        → 2 ^ 64 ≤ 10 * number + (digit - 48)) (λ n. IsTrue (is_digit digit)
        × (n ≡ 10 * number + (digit - 48))) }
{
    if !digit.is_ascii_digit() {
        return None;
    }
    let tens = number.checked_mul(10)?;
    tens.checked_add(u64::from(digit - b'0'))
}

/// The number that 1 to 20 digits stand for, where it fits.
pub fn number(text: &[u8]) -> Option<u64>
    ensures { MatchOption result ((n : ℕ) → n < 2 ^ 64
        → number_of text.now ≢ Some n) (λ n. number_of text.now ≡ Some n) }
{
    if text.is_empty() || text.len() > 20 {
        return None;
    }
    let mut number = 0;
    for digit in text {
        let Some(more) = with_digit(number, *digit) else {
            return None;
        };
        number = more;
    }
    Some(number)
}

/// A number within limits at the front of what is left of a line, and what follows it.
pub fn number_within(rest: &[u8], low: u64, high: u64) -> Result<(u64, &[u8]), LineFault>
    ensures { MatchResult result (λ r. IsTrue (is_within low high r.0)
        × (number_of (first_text rest.now) ≡ Some r.0) × (r.1.now ≡ rest_after rest.now))
        (λ e. (e ≡ Syntax) × ((n : ℕ) → IsTrue (is_within low high n)
        → number_of (first_text rest.now) ≢ Some n)) }
{
    let (text, rest) = cut(rest);
    match number(text) {
        Some(number) if low <= number && number <= high => Ok((number, rest)),
        _ => Err(LineFault::Syntax),
    }
}

/// Any number at the front of what is left of a line, and what follows it.
pub fn any_number(rest: &[u8]) -> Result<(u64, &[u8]), LineFault>
    ensures { MatchResult result (λ r. IsTrue (is_number r.0)
        × (number_of (first_text rest.now) ≡ Some r.0) × (r.1.now ≡ rest_after rest.now))
        (λ e. (e ≡ Syntax) × ((n : ℕ) → IsTrue (is_number n)
        → number_of (first_text rest.now) ≢ Some n)) }
{
    let (text, rest) = cut(rest);
    match number(text) {
        Some(number) => Ok((number, rest)),
        None => Err(LineFault::Syntax),
    }
}

/// The number of a session, and what follows it.
pub fn session(rest: &[u8]) -> Result<(Session, &[u8]), LineFault>
    ensures { MatchResult result (λ r. IsTrue (is_session r.0.0)
        × (number_of (first_text rest.now) ≡ Some r.0.0) × (r.1.now ≡ rest_after rest.now))
        (λ e. (e ≡ Syntax) × ((n : ℕ) → IsTrue (is_session n)
        → number_of (first_text rest.now) ≢ Some n)) }
{
    let (number, rest) = number_within(rest, 1, 64)?;
    Ok((Session(number as u8), rest))
}

/// The number of a table, and what follows it.
pub fn table(rest: &[u8]) -> Result<(Table, &[u8]), LineFault>
    ensures { MatchResult result (λ r. IsTrue (is_table r.0.0)
        × (number_of (first_text rest.now) ≡ Some r.0.0) × (r.1.now ≡ rest_after rest.now))
        (λ e. (e ≡ Syntax) × ((n : ℕ) → IsTrue (is_table n)
        → number_of (first_text rest.now) ≢ Some n)) }
{
    let (number, rest) = number_within(rest, 1, 500)?;
    Ok((Table(number as u16), rest))
}

/// The number of a medium, and what follows it.
pub fn medium(rest: &[u8]) -> Result<(u8, &[u8]), LineFault>
    ensures { MatchResult result (λ r. IsTrue (is_medium r.0)
        × (number_of (first_text rest.now) ≡ Some r.0) × (r.1.now ≡ rest_after rest.now))
        (λ e. (e ≡ Syntax) × ((n : ℕ) → IsTrue (is_medium n)
        → number_of (first_text rest.now) ≢ Some n)) }
{
    let (number, rest) = number_within(rest, 1, 99)?;
    Ok((number as u8, rest))
}
