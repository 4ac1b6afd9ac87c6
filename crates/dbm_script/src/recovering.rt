//! The line that recovers: media, and what to do after them.
ghost use Rattle.std.specs.Prelude.{◌≡◌, ◌≢◌, ◌⊎◌, ℕ, ◌<◌, ◌≤◌, Option, Some, [], ◌∷◌, IsTrue, MatchBool, MatchResult, length, map, codes};
ghost use Rattle.std.specs.List.{list_all};
ghost use Rattle.mdb_model.specs.Script.{Word, Number, until_part, is_medium, number_of};
ghost use Rattle.dbm_script.specs.declared.fault.LineFault.TheVariants.{Syntax};
ghost use Rattle.dbm_script.specs.Cutting.{first_text, rest_after, FitsLine, AreNumbers};
ghost use Rattle.dbm_script.specs.Reading.{IsRest, is_until};

use crate::cutting::cut;
use crate::fault::LineFault;
use crate::forms::{end, is_word};
use crate::numbers::{any_number, medium};
use arrayvec::ArrayVec;
use mdb_model::script::Command;

// The media in front, no more than a line may name, and what follows them.
fn media(rest: &[u8]) -> (ArrayVec<u8, 99>, &[u8])
    ensures media { IsTrue (list_all is_medium result.0.items) }
    ensures few { length result.0.items ≤ 99 }
    ensures read { AreNumbers result.0.items rest.now result.1.now }
    ensures whole { (length result.0.items ≡ 99)
        ⊎ ((n : ℕ) → IsTrue (is_medium n) → number_of (first_text result.1.now) ≢ Some n) }
{
    let mut media = ArrayVec::new();
    let mut left = rest;
    for i in 0..99_usize {
        let Ok((number, after)) = medium(left) else {
            return (media, left);
        };
        media.push(number);
        left = after;
    }
    (media, left)
}

// Whether the log follows, and what is after it.
fn log_option(rest: &[u8]) -> (bool, &[u8])
    ensures { MatchBool result.0 ((first_text rest.now ≡ codes "log")
        × (result.1.now ≡ rest_after rest.now)) ((first_text rest.now ≢ codes "log")
        × (result.1.now ≡ rest.now)) }
{
    let (text, after) = cut(rest);
    if is_word(text, b"log") {
        return (true, after);
    }
    (false, rest)
}

// The commit that the line ends with, if it names one.
fn until_option(rest: &[u8]) -> Result<Option<u64>, LineFault>
    ensures { MatchResult result (λ until. IsTrue (is_until until)
        × FitsLine (until_part until) rest.now)
        (λ e. (e ≡ Syntax) × ((until : Option ℕ) → IsTrue (is_until until)
        → FitsLine (until_part until) rest.now → ⊥)) }
{
    let (text, after) = cut(rest);
    if !is_word(text, b"until") {
        end(rest)?;
        return Ok(None);
    }
    let Ok((number, after)) = any_number(after) else {
        return Err(LineFault::Syntax);
    };
    let Ok(()) = end(after) else {
        return Err(LineFault::Syntax);
    };
    Ok(Some(number))
}

// The line after its media.
fn recover_options(media: ArrayVec<u8, 99>, rest: &[u8]) -> Result<Command, LineFault>
    requires media { IsTrue (list_all is_medium media.items) }
    requires some { 0 < length media.items }
    requires few { length media.items ≤ 99 }
    requires whole { (length media.items ≡ 99)
        ⊎ ((n : ℕ) → IsTrue (is_medium n) → number_of (first_text rest.now) ≢ Some n) }
    ensures { IsRest (Word (codes "recover") ∷ map Number media.items) rest.now result }
{
    let (log, rest) = log_option(rest);
    let Ok(until) = until_option(rest) else {
        return Err(LineFault::Syntax);
    };
    Ok(Command::Recover { media, log, until })
}

/// A line that recovers.
pub fn recover(rest: &[u8]) -> Result<Command, LineFault>
    ensures { IsRest (Word (codes "recover") ∷ []) rest.now result }
{
    let (media, rest) = media(rest);
    if media.is_empty() {
        return Err(LineFault::Syntax);
    }
    recover_options(media, rest)
}
