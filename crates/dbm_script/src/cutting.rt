//! Cutting a line into its words, numbers and byte strings, which stay where they are.
ghost use Rattle.std.specs.Prelude.{◌≡◌, ◌≤◌, false, take, drop, length};
ghost use Rattle.mdb_model.specs.Script.{past_blanks, is_blank_byte};
ghost use Rattle.dbm_script.specs.Cutting.{token, after_token, first_text, rest_after};

fn is_blank(byte: u8) -> bool
    ensures { result ≡ is_blank_byte byte }
{
    byte == b' ' || byte == b'\t'
}

/// What follows the blanks in front.
pub fn skip_blanks(rest: &[u8]) -> &[u8]
    ensures { result.now ≡ past_blanks rest.now }
{
    for (i, byte) in rest.iter().enumerate() {
        if !is_blank(*byte) {
            return &rest[i..];
        }
    }
    &rest[rest.len()..]
}

// How many bytes stand before the first blank outside quotes.
fn token_len(rest: &[u8]) -> usize
    ensures token { take result rest.now ≡ token false rest.now }
    ensures after { drop result rest.now ≡ after_token false rest.now }
    ensures fits { result ≤ length rest.now }
{
    let mut quoted = false;
    for (i, byte) in rest.iter().enumerate() {
        if is_blank(*byte) && !quoted {
            return i;
        }
        if *byte == b'\'' {
            quoted = !quoted;
        }
    }
    rest.len()
}

/// The next part of a line as it is spelled, and what follows it. The part is empty at the end.
#[tactic(auto, unfolding(crate::specs::Cutting::first_text, crate::specs::Cutting::rest_after))]
pub fn cut(rest: &[u8]) -> (&[u8], &[u8])
    ensures text { result.0.now ≡ first_text rest.now }
    ensures rest { result.1.now ≡ rest_after rest.now }
{
    let rest = skip_blanks(rest);
    rest.split_at(token_len(rest))
}
