//! The ends of a transaction, and the need.
ghost use Rattle.std.specs.Prelude.{◌≡◌, true, false, IsTrue};
ghost use Rattle.mdb_model.specs.Answers.{plain};
ghost use Rattle.mdb_model.specs.Script.{is_session};
ghost use Rattle.mdb_model.specs.Space.{need};
ghost use Rattle.mdb_model.specs.Steps.{committed_by};
ghost use Rattle.mdb_model.specs.Tables.{Tables};
ghost use Rattle.mdb_model.specs.Worlds.{World, without_transaction};
ghost use Rattle.mdb_model.specs.declared.script.Command.TheVariants.{RollbackWork};
ghost use Rattle.transactions.specs.Ongoing.{EndsTransaction};
ghost use Rattle.session_rows.specs.Scan.{seen_rows};
ghost use Rattle.session_rows.specs.Serving.{no_pages, IsServed, IsAnswered};
ghost use Rattle.space_rule.specs.KnownCosts.{ended as ended_costs, need_of};
ghost use Rattle.space_rule.specs.Spaces.{known_costs};
ghost use Rattle.space_lines.specs.Counted.{IsCounted};

use mdb_model::name::Session;
use mdb_model::script::Reply;
use space_rule::Space;
use transactions::Transactions;

/// Gives up the session's transaction.
pub fn give_up(transactions: &mut Transactions, space: &mut Space, session: Session) -> Reply
    requires session { IsTrue (is_session session.0) }
    ensures answered { (rows : Tables) (w : World) → IsServed rows transactions.old w
        → IsCounted (known_costs space.old) w
        → IsAnswered no_pages w (RollbackWork session) (plain result)
        (λ after. IsServed rows transactions.new after × IsCounted (known_costs space.new) after) }
    ensures given_up { (rows : Tables) (w : World) → IsServed rows transactions.old w
        → IsCounted (known_costs space.old) w
        → IsServed rows transactions.new (without_transaction w session.0)
        × IsCounted (known_costs space.new) (without_transaction w session.0) }
    ensures ended { EndsTransaction transactions.old transactions.new session.0 }
    ensures settled { known_costs space.new ≡ ended_costs (known_costs space.old) session.0 false }
    ensures reply { result ≡ Reply.RolledBack }
{
    transactions.rollback(session);
    space.ended(session, false);
    Reply::RolledBack
}

/// Ends the session's transaction, which was committed: its changes are rows from now on.
pub fn end_commit(transactions: &mut Transactions, space: &mut Space, session: Session)
    requires session { IsTrue (is_session session.0) }
    ensures committed { (rows : Tables) (w : World) → IsServed rows transactions.old w
        → IsCounted (known_costs space.old) w
        → IsServed (seen_rows rows transactions.old session.0) transactions.new
        (committed_by w session.0)
        × IsCounted (known_costs space.new) (committed_by w session.0) }
    ensures ended { EndsTransaction transactions.old transactions.new session.0 }
    ensures settled { known_costs space.new ≡ ended_costs (known_costs space.old) session.0 true }
{
    // Opens the invariant: each change is within its limits.
    let _changed = transactions.changed(session);
    transactions.ended(session);
    space.ended(session, true);
}

/// The blocks that the database needs, as `info` says them.
pub fn info_need(space: &Space) -> u64
    ensures known { result ≡ need_of (known_costs space.now) }
    ensures world { (w : World) → IsCounted (known_costs space.now) w → result ≡ need w }
{
    space.need()
}
