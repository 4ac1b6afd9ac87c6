//! Saying replies, each by one call.
ghost use Rattle.std.specs.Prelude.{OnOk, OnErr};
ghost use Rattle.mdb_model.specs.Answers.{Row, MediumRow};
ghost use Rattle.mdb_model.specs.Causes.{HasCause};
ghost use Rattle.mdb_model.specs.Output.{Adds, AddsPart};
ghost use Rattle.mdb_model.specs.Text.{item_words, line_of, reply_words};

use crate::replies::{medium_text, reply_text, row_text};
use crate::writing::LineBuf;
use mdb_model::bytes::{KeyBuf, ValueBuf};
use mdb_model::fault::Failed;
use mdb_model::say::Say;
use mdb_model::script::{MediumLine, Reply};

/// Says a reply that ends no items. Where that fails, a front part of it was said.
pub fn print_reply<S: Say>(reply: &Reply, to: &mut S) -> Result<(), Failed>
    ensures whole { OnOk result (Adds (S.said to.old) (S.said to.new)
        (line_of (reply_words 0 reply.now))) }
    ensures part { OnErr result (AddsPart (S.said to.old) (S.said to.new)
        (line_of (reply_words 0 reply.now))) }
    ensures cause { HasCause (S.faults to.old) (S.faults to.new) result }
    ensures follows { S.follows to.old to.new }
{
    print_end(reply, 0, to)
}

/// Says the reply that ends so many items. Where that fails, a front part of it was said.
pub fn print_end<S: Say>(reply: &Reply, items: u64, to: &mut S) -> Result<(), Failed>
    ensures whole { OnOk result (Adds (S.said to.old) (S.said to.new)
        (line_of (reply_words items reply.now))) }
    ensures part { OnErr result (AddsPart (S.said to.old) (S.said to.new)
        (line_of (reply_words items reply.now))) }
    ensures cause { HasCause (S.faults to.old) (S.faults to.new) result }
    ensures follows { S.follows to.old to.new }
{
    let mut line = LineBuf::new();
    reply_text(items, reply, &mut line);
    to.say(line.as_slice())
}

/// Says a row of a scan. Where that fails, a front part of it was said.
pub fn print_row<S: Say>(key: &KeyBuf, value: &ValueBuf, to: &mut S) -> Result<(), Failed>
    ensures whole { OnOk result (Adds (S.said to.old) (S.said to.new)
        (line_of (item_words (Row key.now.items value.now.items)))) }
    ensures part { OnErr result (AddsPart (S.said to.old) (S.said to.new)
        (line_of (item_words (Row key.now.items value.now.items)))) }
    ensures cause { HasCause (S.faults to.old) (S.faults to.new) result }
    ensures follows { S.follows to.old to.new }
{
    let mut line = LineBuf::new();
    row_text(key, value, &mut line);
    to.say(line.as_slice())
}

/// Says a line of a list of media. Where that fails, a front part of it was said.
pub fn print_medium<S: Say>(medium: &MediumLine, to: &mut S) -> Result<(), Failed>
    ensures whole { OnOk result (Adds (S.said to.old) (S.said to.new)
        (line_of (item_words (MediumRow medium.now)))) }
    ensures part { OnErr result (AddsPart (S.said to.old) (S.said to.new)
        (line_of (item_words (MediumRow medium.now)))) }
    ensures cause { HasCause (S.faults to.old) (S.faults to.new) result }
    ensures follows { S.follows to.old to.new }
{
    let mut line = LineBuf::new();
    medium_text(medium, &mut line);
    to.say(line.as_slice())
}
