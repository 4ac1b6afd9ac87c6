//! Redoing the log: the changes of its groups make the rows.
ghost use Rattle.std.specs.Prelude.{◌≡◌, ℕ, ◌+◌, ◌<◌, ◌≤◌, length, IfOk, IfSome, IsSomeAnd, OnOk, unwrap_or};
ghost use Rattle.std.specs.Bool.{OnTrue, OnFalse};
ghost use Rattle.mdb_model.specs.Tables.{with_change, with_commits};
ghost use Rattle.mdb_bytes.specs.LoggedChanges.{change_of, IsWithinLimits};
ghost use Rattle.restart.specs.Redone.{
  IsOnTheWay,
  IsFirstUndone,
  IsReadyToRedo,
  IsMade,
  IsPartMade,
  IsPartSet,
  IsNextRedone,
  IsNextDone,
  HasRedoCause,
  commits_upto,
  commits_behind,
  last_number,
  Allows,
};

use crate::ground::Ground;
use mdb_bytes::{GroupBuf, LoggedChange, changes_of, group_head};
use mdb_model::fault::PageFault;

// Makes one change in the rows.
fn redo_change<G: Ground>(ground: &mut G, change: LoggedChange<'_>) -> Result<(), PageFault>
    requires limits { IsWithinLimits change }
    requires ready { G.can_save ground.old }
    requires numbers { 0 < G.numbers ground.old }
    ensures ready { OnOk result (G.can_save ground.new) }
    ensures made { G.is_known ground.old → OnOk result (G.is_known ground.new
        × (G.held ground.new
        ≡ record (G.held ground.old)
        { rows = with_change (change_of change.entry) (G.held ground.old).rows })) }
    ensures kept { G.is_known ground.old → G.stands ground.old
        → IsOnTheWay (G.fits ground.old) (G.aim ground.old) (G.undone ground.old)
        (G.held ground.old).rows
        → G.keeps_aim ground.old ground.new
        × OnOk result (G.stands ground.new × (G.aim ground.new ≡ G.aim ground.old)
        × (G.undone ground.new ≡ G.undone ground.old)) }
    ensures last { G.last_done ground.new ≡ G.last_done ground.old }
    ensures numbers { G.numbers ground.old ≤ G.numbers ground.new + 1 }
    ensures left { G.left ground.new ≤ G.left ground.old }
    ensures cause { HasRedoCause (G.is_known ground.old) (G.spare_after_savepoint ground.old < 64)
        (G.faults ground.old) (G.faults ground.new) result }
    ensures comes { G.comes_after ground.old ground.new }
{
    ground.room()?;
    match change {
        LoggedChange::Put(table, key, value) => ground.put(table, key, value),
        LoggedChange::Del(table, key) => {
            ground.del(table, key)?;
            Ok(())
        }
    }
}

// Makes the changes of a group in the rows.
fn redo_group<G: Ground>(ground: &mut G, group: &GroupBuf) -> Result<(), PageFault>
    requires ready { G.can_save ground.old }
    requires numbers { length group.now ≤ G.numbers ground.old }
    ensures ready { OnOk result (G.can_save ground.new) }
    ensures made { G.is_known ground.old
        → OnOk result (G.is_known ground.new
        × IsMade (G.held ground.old) (G.held ground.new) group.now) }
    ensures kept { G.is_known ground.old → G.stands ground.old
        → IsFirstUndone (G.aim ground.old) (G.undone ground.old) (G.held ground.old).rows group.now
        → G.fits ground.old (G.undone ground.old) (G.held ground.old).rows
        → G.keeps_aim ground.old ground.new
        × OnOk result (G.stands ground.new × (G.aim ground.new ≡ G.aim ground.old)
        × (G.undone ground.new ≡ G.undone ground.old)) }
    ensures numbers { G.numbers ground.old ≤ G.numbers ground.new + length group.now }
    ensures left { G.left ground.new ≤ G.left ground.old }
    ensures last { G.last_done ground.new ≡ G.last_done ground.old }
    ensures cause { HasRedoCause (G.is_known ground.old)
        ((at : G) × G.comes_after ground.old at × G.is_known at
        × IsPartMade (G.held ground.old).rows (G.held at).rows group.now
        × (G.spare_after_savepoint at < 64))
        (G.faults ground.old) (G.faults ground.new) result }
    ensures comes { G.comes_after ground.old ground.new }
{
    let mut changes = changes_of(group.bytes());
    while let Some(change) = changes.next() {
        redo_change(ground, change)?;
    }
    Ok(())
}

/// Sets the first commit that is not done, whose group this is, and says that it is done. `number`
/// is
/// its number. The log has to be read up to that commit. It asks for room before each change, so at
/// each moment the devices stand for the same rows.
pub fn set_commit<G: Ground>(ground: &mut G, group: &GroupBuf, number: u64) -> Result<(), PageFault>
    requires ready { G.can_save ground.old }
    requires numbers { length group.now ≤ G.numbers ground.old }
    ensures ready { OnOk result (G.can_save ground.new) }
    ensures made { G.is_known ground.old
        → OnOk result (G.is_known ground.new
        × IsMade (G.held ground.old) (G.held ground.new) group.now) }
    ensures kept { G.is_known ground.old → G.stands ground.old
        → (next : IsFirstUndone (G.aim ground.old) (G.undone ground.old) (G.held ground.old).rows
        group.now) → next.rest ≡ (G.held ground.old).log.commits
        → (G.held ground.old).log.after ≡ number → number ≡ G.last_done ground.old + 1
        → G.fits ground.old (G.undone ground.old) (G.held ground.old).rows
        → G.keeps_aim ground.old ground.new
        × OnOk result (G.stands ground.new × (G.aim ground.new ≡ G.aim ground.old)
        × (G.undone ground.new ≡ (G.held ground.old).log.commits)) }
    ensures numbers { G.numbers ground.old ≤ G.numbers ground.new + length group.now }
    ensures left { G.left ground.new ≤ G.left ground.old }
    ensures told { OnOk result (G.last_done ground.new ≡ number) }
    ensures cause { HasRedoCause (G.is_known ground.old)
        ((at : G) × G.comes_after ground.old at × G.is_known at
        × IsPartMade (G.held ground.old).rows (G.held at).rows group.now
        × (G.spare_after_savepoint at < 64))
        (G.faults ground.old) (G.faults ground.new) result }
    ensures comes { G.comes_after ground.old ground.new }
{
    redo_group(ground, group)?;
    ground.done(number);
    Ok(())
}

// Whether a commit of this number is behind those that are asked for.
fn is_behind(number: u64, until: Option<u64>) -> bool
    ensures allowed { OnFalse result (Allows until number) }
    ensures behind { OnTrue result (IsSomeAnd until (λ until. until < number)) }
{
    match until {
        Some(until) => until < number,
        None => false,
    }
}

// Sets the first commit that is left, and answers its number; none where no commit is left that is
// asked for.
fn redo_next<G: Ground>(
    ground: &mut G,
    group: &mut GroupBuf,
    until: Option<u64>,
) -> Result<Option<u64>, PageFault>
    requires ready { G.can_save ground.old }
    requires numbers { G.left ground.old ≤ G.numbers ground.old }
    ensures ready { OnOk result (G.can_save ground.new) }
    ensures next { G.is_known ground.old
        → IfOk result (λ number. G.is_known ground.new
        × IsNextRedone number until (G.held ground.old) (G.held ground.new)) }
    ensures kept { G.is_known ground.old → G.stands ground.old
        → IsReadyToRedo (G.aim ground.old) (G.undone ground.old) (G.last_done ground.old)
        (G.held ground.old)
        → G.fits ground.old (G.undone ground.old) (G.held ground.old).rows
        → G.keeps_aim ground.old ground.new
        × IfOk result (λ number. G.stands ground.new × (G.aim ground.new ≡ G.aim ground.old)
        × IsNextDone number (G.undone ground.old) (G.undone ground.new)
        (G.held ground.new).log) }
    ensures numbers { G.numbers ground.old + G.left ground.new
        ≤ G.numbers ground.new + G.left ground.old }
    ensures told { IfOk result (λ number. G.last_done ground.new
        ≡ unwrap_or number (G.last_done ground.old)) }
    ensures cause { HasRedoCause (G.is_known ground.old)
        ((at : G) × G.comes_after ground.old at × G.is_known at
        × IsPartSet (G.held ground.old) (G.held at).rows × (G.spare_after_savepoint at < 64))
        (G.faults ground.old) (G.faults ground.new) result }
    ensures comes { G.comes_after ground.old ground.new }
{
    if !ground.next(group)? {
        return Ok(None);
    }
    let Some(head) = group_head(group.bytes()) else {
        return Ok(None);
    };
    if is_behind(head.number, until) {
        return Ok(None);
    }
    set_commit(ground, group, head.number)?;
    Ok(Some(head.number))
}

// Whether the last commit that is asked for is set.
fn is_reached(last: Option<u64>, until: Option<u64>) -> bool
    ensures { OnTrue result (IsSomeAnd last (λ last. IsSomeAnd until (λ until. until ≤ last))) }
{
    match (last, until) {
        (Some(last), Some(until)) => until <= last,
        _ => false,
    }
}

/// Sets the commits of the log in order up to the number `until`, or all of them, and answers the
/// number of the last one, none where it set none. `group` is the room for one group. Before each
/// change it asks for room, and after each commit it says that it is done: so at each moment the
/// devices stand for the same rows, also where the call fails. What is left of the log is not said;
/// where the call fails, some of the commits are set, and of one more perhaps a part.
pub fn redo<G: Ground>(
    ground: &mut G,
    group: &mut GroupBuf,
    until: Option<u64>,
) -> Result<Option<u64>, PageFault>
    requires ready { G.can_save ground.old }
    requires numbers { G.left ground.old ≤ G.numbers ground.old }
    ensures ready { OnOk result (G.can_save ground.new) }
    ensures rows { G.is_known ground.old → OnOk result (G.is_known ground.new
        × ((G.held ground.new).rows
        ≡ with_commits (commits_upto until (G.held ground.old).log) (G.held ground.old).rows)
        × ((G.held ground.new).undo ≡ (G.held ground.old).undo)) }
    ensures kept { G.is_known ground.old → G.stands ground.old
        → IsReadyToRedo (G.aim ground.old) (G.undone ground.old) (G.last_done ground.old)
        (G.held ground.old)
        → G.fits ground.old (G.undone ground.old) (G.held ground.old).rows
        → G.keeps_aim ground.old ground.new
        × OnOk result (G.stands ground.new × (G.aim ground.new ≡ G.aim ground.old)
        × (G.undone ground.new ≡ commits_behind until (G.held ground.old).log)) }
    ensures last { G.is_known ground.old
        → IfOk result (λ last. last
        ≡ last_number (G.held ground.old).log.after (commits_upto until (G.held ground.old).log)) }
    ensures numbers { G.numbers ground.old + G.left ground.new
        ≤ G.numbers ground.new + G.left ground.old }
    ensures told { IfOk result (λ last. G.last_done ground.new
        ≡ unwrap_or last (G.last_done ground.old)) }
    ensures cause { HasRedoCause (G.is_known ground.old)
        ((at : G) × G.comes_after ground.old at × G.is_known at
        × IsPartSet (G.held ground.old) (G.held at).rows × (G.spare_after_savepoint at < 64))
        (G.faults ground.old) (G.faults ground.new) result }
    ensures comes { G.comes_after ground.old ground.new }
{
    let mut last = None;
    for _count in 0..u64::MAX {
        if is_reached(last, until) {
            return Ok(last);
        }
        match redo_next(ground, group, until)? {
            Some(number) => last = Some(number),
            None => return Ok(last),
        }
    }
    Ok(last)
}
