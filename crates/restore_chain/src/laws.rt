//! What a chain depends on. The function does nothing: its contract is the law.
ghost use Rattle.std.specs.Prelude.{◌≡◌, ℕ, List, Option};
ghost use Rattle.mdb_model.specs.Backups.{Backup};
ghost use Rattle.mdb_model.specs.Chains.{chain};
ghost use Rattle.mdb_bytes.specs.WholeBackups.{header_for};
ghost use Rattle.restore_chain.specs.Links.{link_of, IsAlike, AreAlike};

/// A chain depends on the kinds, names and numbers of its links alone, and a backup's header has
/// these. So whoever reads the headers of media knows the chain of what the media hold.
pub fn chains_depend_on_numbers()
    ensures alike { (a b : List Backup) (until : Option ℕ) → AreAlike a b
        → chain a until ≡ chain b until }
    ensures header { (end : ℕ) (backup : Backup)
        → IsAlike (link_of (header_for end backup)) backup }
{}
