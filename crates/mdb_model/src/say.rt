//! Where text goes.
ghost use Rattle.std.specs.Prelude.{ℕ, List, Option, OnOk, OnErr};
ghost use Rattle.mdb_model.specs.Causes.{HasCause};
ghost use Rattle.mdb_model.specs.Output.{Adds, AddsPart};

use crate::fault::Failed;

/// An output that text is added to.
pub trait Say {
    /// What was said so far, where that is known.
    ghost said: { Self → Option (List ℕ) };

    /// How often a call has failed.
    ghost faults: { Self → ℕ };

    /// The second value comes from the first by calls: it holds the same borrows.
    ghost follows: { Self → Self → Type 0 };

    /// Adds the text to the output; where it fails, a front part of it.
    fn say(&mut self, text: &[u8]) -> Result<(), Failed>
        ensures whole { OnOk result (Adds (said self.old) (said self.new) text.now) }
        ensures part { OnErr result (AddsPart (said self.old) (said self.new) text.now) }
        ensures cause { HasCause (faults self.old) (faults self.new) result }
        ensures follows { follows self.old self.new };

    ghost follows_itself: { (s : Self) → follows s s };

    ghost follows_on: { (a b c : Self) → follows a b → follows b c → follows a c };
}
