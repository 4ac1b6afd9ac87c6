//! What the links so far lead to, and which link can follow them.
ghost use Rattle.std.specs.Prelude.{◌≡◌, ℕ, ◌-◌, ◌^◌, ◌<◌, List, [], ◌∷◌, unwrap_or};
ghost use Rattle.mdb_model.specs.Backups.{Backup, LogGroups};
ghost use Rattle.mdb_model.specs.Chains.{plan};
ghost use Rattle.restore_chain.specs.Links.{link_of, changes_of, log_part};
ghost use Rattle.restore_chain.specs.Following.{IsReached, Follows, Answers};

use crate::fault::ChainFault;
use crate::links::{LogLink, Plan};
use mdb_bytes::MediumHeader;
use mdb_model::name::Name;
use mdb_model::script::{BackupKind, PageKind};

/// What links that follow one another lead to.
#[derive(Clone, Copy)]
pub struct Reached {
    /// The name of the first link.
    pub name: Name,
    /// How many page backups stand in front.
    pub pages: u32,
    /// The savepoint of the last link, where it is a page backup.
    pub savepoint: Option<u64>,
    /// The commit of the last page backup in front.
    pub lo: u64,
    /// The last commit that the links reach.
    pub reach: u64,
}

impl Reached {
    /// What the first link leads to, or `None` where it does not have all pages.
    pub fn from_first(first: &MediumHeader) -> Option<Self>
        ensures { Follows [] (link_of first.now ∷ []) result }
    {
        match first.kind {
            BackupKind::OfPages(PageKind::Complete) => Some(Reached {
                name: first.name,
                pages: 1,
                savepoint: Some(first.savepoint),
                lo: first.last,
                reach: first.last,
            }),
            BackupKind::OfPages(PageKind::Incremental) | BackupKind::OfLog => None,
        }
    }

    /// What one more medium leads to, or `None` where it cannot follow.
    pub fn with_medium(self, header: &MediumHeader) -> Option<Self>
        requires { self.pages < 2 ^ 32 - 1 }
        ensures { (links : List Backup) → IsReached links self
            → Follows links (link_of header.now ∷ []) result }
    {
        match header.kind {
            BackupKind::OfPages(PageKind::Complete) => None,
            BackupKind::OfPages(PageKind::Incremental) => self.with_changes(header),
            BackupKind::OfLog => self.with_log(header.name, header.first, header.last),
        }
    }

    /// What the log area leads to, where it is named, or `None` where it cannot follow.
    pub fn with_area(self, log: Option<LogLink>) -> Option<Self>
        ensures { (links : List Backup) → IsReached links self
            → Follows links (log_part log) result }
    {
        match log {
            None => Some(self),
            Some(link) => self.with_log(link.name, link.first, link.last),
        }
    }

    /// The plan up to an end, or else as far as the links reach.
    pub fn plan_up_to(self, until: Option<u64>) -> Result<Plan, ChainFault>
        ensures { Answers (plan self.pages self.lo self.reach (unwrap_or until self.reach)) result }
    {
        let end = until.unwrap_or(self.reach);
        if end < self.lo || self.reach < end {
            return Err(ChainFault::Until {
                lo: self.lo,
                hi: self.reach,
            });
        }
        Ok(Plan {
            pages: self.pages,
            reach: end,
        })
    }

    // What changed pages lead to: they follow the page backup that is their base.
    fn with_changes(self, header: &MediumHeader) -> Option<Self>
        requires { self.pages < 2 ^ 32 - 1 }
        ensures { (links : List Backup) → IsReached links self
            → Follows links (changes_of header.now ∷ []) result }
    {
        if self.name != header.name || self.savepoint != Some(header.base) {
            return None;
        }
        Some(Reached {
            pages: self.pages + 1,
            savepoint: Some(header.savepoint),
            lo: header.last,
            reach: header.last,
            ..self
        })
    }

    // What log leads to: it begins at the latest behind the last commit that was reached.
    fn with_log(self, name: Name, first: u64, last: u64) -> Option<Self>
        ensures { (links : List Backup) (blocks : ℕ) → IsReached links self
            → Follows links (LogGroups name first last [] blocks ∷ []) result }
    {
        if self.name != name || self.reach < first.saturating_sub(1) {
            return None;
        }
        Some(Reached {
            savepoint: None,
            reach: self.reach.max(last),
            ..self
        })
    }
}
