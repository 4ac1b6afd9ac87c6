//! What a restart stands on.
ghost use Rattle.std.specs.Prelude.{◌≡◌, ℕ, ◌+◌, List, ◌∷◌, ◌<◌, ◌≤◌, OnOk};
ghost use Rattle.mdb_model.specs.declared.change.Commit.{Commit};
ghost use Rattle.mdb_model.specs.Tables.{Tables, with_changes};
ghost use Rattle.mdb_bytes.specs.Held.{HasRoomCause};
ghost use Rattle.restart.specs.Redone.{IsOnTheWay, IsSetWhole};

use mdb_bytes::{LogRead, Rows};
use mdb_model::fault::PageFault;

/// Rows, a log, and room for changes, over devices that stand for rows: after a stop, a restart
/// makes
/// those. A savepoint that is made within `room` has the rows as they are, with the last commit
/// told
/// by `done`: so they stand for the same rows where the rows now with the commits that are not done
/// are those, whatever of the first of them is set by then.
pub trait Ground: Rows + LogRead {
    /// The rows that the devices stand for.
    ghost aim: { Self → Tables };

    /// The commits that are not done: those of the log behind the last one told by `done`.
    ghost undone: { Self → List Commit };

    /// Whether these are known, and the devices stand for those rows whatever a stop leaves of
    /// them.
    ghost stands: { Self → Type 0 };

    /// The number of the last commit that was told by `done`; before that, of the last commit
    /// before
    /// the log.
    ghost last_done: { Self → ℕ };

    /// How many savepoints there are numbers for.
    ghost numbers: { Self → ℕ };

    /// How many spare pages there would be after a savepoint.
    ghost spare_after_savepoint: { Self → ℕ };

    /// The second value comes from the first by calls, with `room` and `done` among them: it holds
    /// the
    /// same borrows.
    ghost comes_after: { Self → Self → Type 0 };

    /// What a savepoint needs to be made at all, as that the devices are there.
    ghost can_save: { Self → Type 0 };

    /// The commits have room on these rows, set one after the other.
    ghost fits: { Self → List Commit → Tables → Type 0 };

    /// At each moment from the first value to the second the devices stood for the rows that they
    /// stood for at first.
    ghost keeps_aim: { Self → Self → Type 0 };

    /// Leaves 64 spare pages or more, by a savepoint where there are fewer. Where a savepoint
    /// leaves fewer, that is called damaged. What is left of the room where it fails is not said.
    fn room(&mut self) -> Result<(), PageFault>
        requires ready { Self.can_save self.old }
        requires numbers { 0 < Self.numbers self.old }
        ensures ready { OnOk result (Self.can_save self.new) }
        ensures numbers { Self.numbers self.old ≤ Self.numbers self.new + 1 }
        ensures room { OnOk result (64 ≤ Self.spare self.new) }
        ensures same { Self.is_known self.old
            → OnOk result (Self.is_known self.new × (Self.held self.new ≡ Self.held self.old)) }
        ensures kept { Self.is_known self.old → Self.stands self.old
            → IsOnTheWay (Self.fits self.old) (Self.aim self.old) (Self.undone self.old)
            (Self.held self.old).rows
            → Self.keeps_aim self.old self.new
            × OnOk result (Self.stands self.new × (Self.aim self.new ≡ Self.aim self.old)
            × (Self.undone self.new ≡ Self.undone self.old)) }
        ensures last { Self.last_done self.new ≡ Self.last_done self.old }
        ensures left { Self.left self.new ≡ Self.left self.old }
        ensures cause { HasRoomCause (Self.is_known self.old) (Self.spare_after_savepoint self.old)
            (Self.faults self.old) (Self.faults self.new) result }
        ensures comes { Self.comes_after self.old self.new };

    /// Says that all changes up to this commit are set.
    fn done(&mut self, commit: u64)
        ensures told { Self.last_done self.new ≡ commit }
        ensures numbers { Self.numbers self.new ≡ Self.numbers self.old }
        ensures left { Self.left self.new ≡ Self.left self.old }
        ensures ready { Self.can_save self.old → Self.can_save self.new }
        ensures kept { Self.is_known self.old → Self.stands self.old
            → IsSetWhole (Self.aim self.old) (Self.undone self.old) (Self.last_done self.old)
            (Self.held self.old) commit
            → Self.keeps_aim self.old self.new
            × (Self.stands self.new × (Self.aim self.new ≡ Self.aim self.old)
            × (Self.undone self.new ≡ (Self.held self.old).log.commits)) }
        ensures known { Self.is_known self.old → Self.is_known self.new }
        ensures held { Self.held self.new ≡ Self.held self.old }
        ensures spare { Self.spare self.new ≡ Self.spare self.old }
        ensures faults { Self.faults self.new ≡ Self.faults self.old }
        ensures comes { Self.comes_after self.old self.new };

    /// Each other call leaves the devices as they stand, what is not done, and the last number.
    ghost keeps_by_calls: { (a b : Self) → Self.follows a b → stands a → keeps_aim a b
        × (stands b × (aim b ≡ aim a) × (undone b ≡ undone a)) };

    ghost saves_on: { (a b : Self) → Self.follows a b → can_save a → can_save b };

    ghost keeps_numbers: { (a b : Self) → Self.follows a b → numbers b ≡ numbers a };

    ghost keeps_last: { (a b : Self) → Self.follows a b → last_done b ≡ last_done a };

    ghost kept_on: { (a b c : Self) → keeps_aim a b → aim b ≡ aim a → keeps_aim b c
        → keeps_aim a c };

    ghost comes_by_calls: { (a b : Self) → Self.follows a b → comes_after a b };

    ghost comes_on: { (a b c : Self) → comes_after a b → comes_after b c → comes_after a c };

    ghost fits_on: { (a b : Self) → comes_after a b → (commits : List Commit) (rows : Tables)
        → fits a commits rows → fits b commits rows };

    ghost fits_rest: { (a : Self) (commit : Commit) (commits : List Commit) (rows : Tables)
        → fits a (commit ∷ commits) rows → fits a commits (with_changes commit.changes rows) };
}
