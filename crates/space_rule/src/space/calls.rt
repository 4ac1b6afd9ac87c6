//! The calls of the space rule.
ghost use Rattle.std.specs.Prelude.{◌≡◌, ◌+◌, ◌-◌, ◌^◌, ◌<◌, ◌≤◌, ℕ, [], ◌∷◌, ◌++◌, if◌then◌else◌};
ghost use Rattle.std.specs.Prelude.{List, true, false, length, replicate, None, Some, IfSome};
ghost use Rattle.std.specs.Prelude.{IfNone, OnOk, OnErr, IsTrue, map, vec_len, vec_capacity};
ghost use Rattle.std.specs.Prelude.{sum_by, slice_index, slice_set, option_map, Vec};
ghost use Rattle.std.specs.Bool.{OnTrue, OnFalse};
ghost use Rattle.std.specs.Option.{ForSome};
ghost use Rattle.mdb_model.specs.Script.{is_session, is_table};
ghost use Rattle.mdb_model.specs.Tables.{place_of};
ghost use Rattle.mdb_bytes.specs.Groups.{change_fits};
ghost use Rattle.space_rule.specs.declared.open_change.OpenChange.{OpenChange};
ghost use Rattle.space_rule.specs.KnownCosts.{
  changes_at,
  ended,
  growth_of,
  loaded,
  need_of,
  noted,
  opened_change,
  all_table_pages,
  prepared_for,
  session_undo,
  logical_size,
  undo_cost,
  undo_of,
  with_area,
  with_noted,
  with_open,
};
ghost use Rattle.space_rule.specs.Spaces.{known_costs};
ghost use Rattle.space_rule.specs.Settling.{IsChangeSettled};
ghost use Rattle.space_rule.specs.Weighing.{lists, HasChangeRoom, IsInOrder};

use crate::costs::{
    converter_page_count, growth, image_cost, row_cost, table_page_count, undo_page_count,
};
use crate::open_change::{OpenChange, Weight, put_open, weight_with};
use crate::space::{SESSIONS, Space, TABLES};
use mdb_model::bytes::Key;
use mdb_model::change::Change;
use mdb_model::fault::Memory;
use mdb_model::name::{Session, Table};
use std::alloc::Global;
use std::array;

// The sums with one more change of a session.
#[derive(Clone, Copy)]
struct Weighed {
    weight: Weight,
    pages: u64,
    undo: u64,
}

// The sums after the last change of a session ended.
#[derive(Clone, Copy)]
pub(crate) struct Settled {
    index: usize,
    committed: u64,
    weight: Weight,
    pages: u64,
    undo: u64,
}

fn table_of(change: &Change) -> Table
    ensures table { (before : _) → result ≡ (opened_change change.now before).table }
    ensures place { result.0 ≡ (place_of change.now).0 }
{
    match change {
        Change::Put(table, _, _) => *table,
        Change::Del(table, _) => *table,
    }
}

fn key_of(change: &Change) -> &Key
    ensures key { (before : _) → result.now ≡ (opened_change change.now before).key }
    ensures place { result.now ≡ (place_of change.now).1 }
{
    match change {
        Change::Put(_, key, _) => key,
        Change::Del(_, key) => key,
    }
}

// The length of the value that the row has after the change.
fn len_after(change: &Change) -> Option<u16>
    requires { IsTrue (change_fits change.now) }
    ensures { (before : _) → result ≡ (opened_change change.now before).now }
{
    match change {
        Change::Put(_, _, value) => Some(value.bytes().len() as u16),
        Change::Del(_, _) => None,
    }
}

// A length as a change keeps it.
fn short_len(len: Option<usize>) -> Option<u16>
    requires { ForSome len (λ n. n ≤ 1500) }
    ensures { result ≡ len }
{
    match len {
        Some(len) => Some(len as u16),
        None => None,
    }
}

// The committed cost of a table once a change of a row ended.
fn settled_cost(committed: u64, before: u64, now: u64, is_commit: bool) -> u64
    requires { (committed < 2 ^ 62) × (now < 2 ^ 63) }
    ensures { result ≡ (if is_commit then (committed + now) - before else committed) }
{
    if is_commit {
        (committed + now).saturating_sub(before)
    } else {
        committed
    }
}

// Takes the last change away.
fn drop_last(changes: &mut Vec<OpenChange>)
    ensures { (xs : List OpenChange) (x : OpenChange) → changes.old.items ≡ xs ++ x ∷ []
        → changes.new.items ≡ xs }
{
    changes.pop();
}

// Adds a change of the key for which memory was taken.
fn place_open(
    changes: &mut Vec<OpenChange>,
    taken: Option<(Table, Key)>,
    before: Option<u16>,
    now: Option<u16>,
)
    requires order { IsInOrder changes.old.items }
    requires table { ForSome taken (λ place. IsTrue (is_table place.0.0)) }
    requires room { ForSome taken (λ _. vec_len changes.old < vec_capacity changes.old) }
    ensures one { (x : OpenChange) → taken ≡ Some (x.table, x.key) → x.before ≡ before → x.now ≡ now
        → changes.new.items ≡ with_open x changes.old.items }
    ensures order { IsInOrder changes.new.items }
{
    if let Some((table, key)) = taken {
        let open = OpenChange {
            table,
            key,
            before,
            now,
        };
        put_open(changes, open);
    }
}

fn no_costs() -> [u64; TABLES]
    ensures { result ≡ replicate 501 0 }
{
    [0; TABLES]
}

fn no_bytes() -> [u64; SESSIONS]
    ensures { result ≡ replicate 65 0 }
{
    [0; SESSIONS]
}

fn no_changes(alloc: Global) -> [Vec<OpenChange>; SESSIONS]
    ensures { lists result ≡ replicate 65 [] }
{
    array::from_fn(|_| Vec::new(alloc))
}

// Takes the memory for one more change.
fn reserve_one(changes: &mut Vec<OpenChange>) -> Result<(), Memory>
    ensures same { changes.new.items ≡ changes.old.items }
    ensures room { OnOk result (vec_len changes.new < vec_capacity changes.new) }
{
    changes.reserve(1).map_err(|_| Memory)
}

// Takes the memory for one more change of each session.
fn reserve_each(sessions: &mut [Vec<OpenChange>; SESSIONS]) -> Result<(), Memory>
    ensures same { lists sessions.new ≡ lists sessions.old }
    ensures room { OnOk result (HasChangeRoom sessions.new) }
{
    for session in 0..SESSIONS {
        reserve_one(&mut sessions[session])?;
    }
    Ok(())
}

impl Space {
    /// An area of this number of blocks, with no rows, no open changes and nothing kept. It takes
    /// no memory.
    pub fn new(alloc: Global, blocks: u32) -> Space
        ensures { known_costs result
            ≡ record {
              blocks = blocks;
              kept = 0;
              committed = replicate 501 0;
              sessions = replicate 65 [];
              prepared = None;
            } }
    {
        Space {
            alloc,
            blocks,
            kept: 0,
            committed: no_costs(),
            grown: no_costs(),
            sessions: no_changes(alloc),
            undo_bytes: no_bytes(),
            pages: 0,
            undo: 0,
            prepared: None,
        }
    }

    /// The logical pages that the database may have now.
    pub fn size(&self) -> u64
        ensures size { result ≡ logical_size (known_costs self.now) }
        ensures small { result ≤ 2 ^ 62 }
    {
        self.pages + self.undo + 2
    }

    /// The blocks that the database needs.
    pub fn need(&self) -> u64
        ensures { result ≡ need_of (known_costs self.now) }
    {
        2 + self.size() + 2 * converter_page_count(self.blocks) + self.kept
    }

    // The sums with one more change of a session.
    fn weighed(&self, session: Session, change: &Change, before: Option<usize>) -> Weighed
        requires session { IsTrue (is_session session.0) }
        requires limits { IsTrue (change_fits change.now) }
        requires before { ForSome before (λ n. n ≤ 1500) }
        // The result.
        ensures grown { result.weight.grown
            ≡ growth_of (place_of change.now).0
            (with_noted (known_costs self.now).sessions session.0 change.now before) }
        ensures bytes { result.weight.bytes
            ≡ sum_by undo_cost
            (with_open (opened_change change.now before)
            (changes_at (known_costs self.now).sessions session.0)) }
        ensures pages { result.pages
            ≡ all_table_pages self.now.committed
            (with_noted (known_costs self.now).sessions session.0 change.now before) }
        ensures undo { result.undo
            ≡ undo_of (with_noted (known_costs self.now).sessions session.0 change.now before) }
        ensures small { (result.pages ≤ 2 ^ 62) × (result.undo ≤ 2 ^ 61) }
    {
        let table = table_of(change);
        let index = table.0 as usize;
        let number = session.0 as usize;
        let old = Weight {
            grown: self.grown[index],
            bytes: self.undo_bytes[number],
        };
        let key = key_of(change).bytes();
        let weight = weight_with(
            &self.sessions[number],
            old,
            table,
            key,
            short_len(before),
            len_after(change),
        );
        let committed = self.committed[index];
        Weighed {
            weight,
            pages: self.pages - table_page_count(committed + old.grown)
                + table_page_count(committed + weight.grown),
            undo: self.undo - undo_page_count(old.bytes) + undo_page_count(weight.bytes),
        }
    }

    /// The blocks that the database would need with one more change of a session. `before` is the
    /// length in bytes of the value that the session sees at the key, none where it sees no row.
    /// Only the length at a session's first change of a key counts.
    pub fn would_need(&self, session: Session, change: &Change, before: Option<usize>) -> u64
        requires session { IsTrue (is_session session.0) }
        requires limits { IsTrue (change_fits change.now) }
        requires before { ForSome before (λ n. n ≤ 1500) }
        ensures { result ≡ need_of (noted (known_costs self.now) session.0 change.now before) }
    {
        let weighed = self.weighed(session, change, before);
        let size = weighed.pages + weighed.undo + 2;
        2 + size + 2 * converter_page_count(self.blocks) + self.kept
    }

    /// Takes the memory for one `note` of this change, whatever the session. Out of memory,
    /// nothing is prepared; else all is as it was.
    pub fn prepare(&mut self, change: &Change) -> Result<(), Memory>
        ensures ok { OnOk result
            (known_costs self.new ≡ prepared_for (known_costs self.old)
            (Some (place_of change.now))) }
        ensures err { OnErr result (known_costs self.new ≡ prepared_for (known_costs self.old) None) }
    {
        self.prepared = None;
        let key = key_of(change).copy(self.alloc)?;
        reserve_each(&mut self.sessions)?;
        self.prepared = Some((table_of(change), key));
        Ok(())
    }

    /// Counts one more change of a session, as `would_need` weighs it. It takes no memory.
    pub fn note(&mut self, session: Session, change: &Change, before: Option<usize>)
        requires session { IsTrue (is_session session.0) }
        requires limits { IsTrue (change_fits change.now) }
        requires before { ForSome before (λ n. n ≤ 1500) }
        requires prepared { (known_costs self.old).prepared ≡ Some (place_of change.now) }
        requires small { need_of (noted (known_costs self.old) session.0 change.now before) ≤ 2 ^ 32 }
        ensures { known_costs self.new ≡ noted (known_costs self.old) session.0 change.now before }
    {
        let weighed = self.weighed(session, change, before);
        let index = table_of(change).0 as usize;
        let number = session.0 as usize;
        let taken = self.prepared.take();
        place_open(
            &mut self.sessions[number],
            taken,
            short_len(before),
            len_after(change),
        );
        self.grown[index] = weighed.weight.grown;
        self.undo_bytes[number] = weighed.weight.bytes;
        self.pages = weighed.pages;
        self.undo = weighed.undo;
    }

    /// Sets the blocks of the area, and what is kept for snapshots and a backup under way.
    pub fn set_area(&mut self, blocks: u32, kept: u64)
        requires { kept < 2 ^ 62 }
        ensures { known_costs self.new ≡ with_area (known_costs self.old) blocks kept }
    {
        self.blocks = blocks;
        self.kept = kept;
    }

    /// Sets what the committed rows of a table cost in bytes. No change may be open.
    pub fn load(&mut self, table: Table, bytes: u64)
        requires table { IsTrue (is_table table.0) }
        requires small { bytes < 2 ^ 62 }
        requires none { (i : ℕ) → changes_at (known_costs self.old).sessions i ≡ [] }
        ensures { known_costs self.new ≡ loaded (known_costs self.old) table.0 bytes }
    {
        let index = table.0 as usize;
        let old = table_page_count(self.committed[index] + self.grown[index]);
        self.pages = self.pages - old + table_page_count(bytes);
        self.committed[index] = bytes;
    }

    // The sums after the last change of a session ended. `None` if it has none.
    fn without_last(&self, session: usize, is_commit: bool) -> Option<Settled>
        requires { session < 65 }
        ensures some { IfSome result
            (λ settled. (xs : List OpenChange) (x : OpenChange)
            → changes_at (known_costs self.now).sessions session ≡ xs ++ x ∷ []
            → IsChangeSettled self.now.committed self.now.grown (known_costs self.now).sessions
            self.now.undo_bytes session is_commit xs x settled) }
        ensures one { IfSome result
            (λ settled. 0 < length (changes_at (known_costs self.now).sessions session)) }
        ensures inside { IfSome result (λ settled. settled.index < 501) }
        ensures none { IfNone result (changes_at (known_costs self.now).sessions session ≡ []) }
    {
        let changes = self.sessions[session].as_slice();
        if changes.is_empty() {
            return None;
        }
        let change = &changes[changes.len() - 1];
        Some(self.settled(session, change, is_commit))
    }

    // The sums after this change ended, the last one of a session.
    fn settled(&self, session: usize, change: &OpenChange, is_commit: bool) -> Settled
        requires session { session < 65 }
        requires last { (xs : List OpenChange)
            × (changes_at (known_costs self.now).sessions session ≡ xs ++ change.now ∷ []) }
        ensures inside { result.index < 501 }
        ensures sums { (xs : List OpenChange)
            → changes_at (known_costs self.now).sessions session ≡ xs ++ change.entry.now ∷ []
            → IsChangeSettled self.now.committed self.now.grown (known_costs self.now).sessions
            self.now.undo_bytes session is_commit xs change.entry.now result }
    {
        let index = change.table.0 as usize;
        let key = change.key.bytes();
        let before = row_cost(key, change.before);
        let now = row_cost(key, change.now);
        let old_cost = self.committed[index] + self.grown[index];
        let committed = settled_cost(self.committed[index], before, now, is_commit);
        let grown = self.grown[index] - growth(key, change.before, change.now);
        let old_bytes = self.undo_bytes[session];
        let bytes = old_bytes - image_cost(key, change.before);
        Settled {
            index,
            committed,
            weight: Weight { grown, bytes },
            pages: self.pages - table_page_count(old_cost) + table_page_count(committed + grown),
            undo: self.undo - undo_page_count(old_bytes) + undo_page_count(bytes),
        }
    }

    // Takes the last change of a session, which was committed or rolled back; false where there is
    // none.
    fn settle_last(&mut self, session: usize, is_commit: bool) -> bool
        requires { session < 65 }
        ensures settled { ended (known_costs self.new) session is_commit
            ≡ ended (known_costs self.old) session is_commit }
        ensures fewer { OnTrue result
            (length (changes_at (known_costs self.new).sessions session)
            < length (changes_at (known_costs self.old).sessions session)) }
        ensures none { OnFalse result
            (known_costs self.new ≡ ended (known_costs self.old) session is_commit) }
    {
        self.prepared = None;
        let Some(settled) = self.without_last(session, is_commit) else {
            return false;
        };
        drop_last(&mut self.sessions[session]);
        self.committed[settled.index] = settled.committed;
        self.grown[settled.index] = settled.weight.grown;
        self.undo_bytes[session] = settled.weight.bytes;
        self.pages = settled.pages;
        self.undo = settled.undo;
        true
    }

    /// Counts the transaction of a session as ended: its changes are committed rows from now on, or
    /// they are gone. Nothing stays prepared. It takes time for each change of the session.
    pub fn ended(&mut self, session: Session, committed: bool)
        requires { IsTrue (is_session session.0) }
        ensures { known_costs self.new ≡ ended (known_costs self.old) session.0 committed }
    {
        let number = session.0 as usize;
        while self.settle_last(number, committed) {}
    }
}
