//! Which media in order, and the log area after them, can be restored.
ghost use Rattle.std.specs.Prelude.{ℕ, ◌<◌, ◌≤◌, ◌++◌, length, map};
ghost use Rattle.mdb_model.specs.Chains.{chain};
ghost use Rattle.restore_chain.specs.Links.{link_of, log_part};
ghost use Rattle.restore_chain.specs.Following.{Answers, MediaAnswer};

use crate::fault::ChainFault;
use crate::links::{LogLink, Plan};
use crate::reached::Reached;
use mdb_bytes::MediumHeader;

// What the media lead to, or the first that cannot follow.
fn reached_by(headers: &[MediumHeader]) -> Result<Reached, ChainFault>
    requires some { 0 < length headers.now }
    requires most { length headers.now ≤ 99 }
    ensures { MediaAnswer (map link_of headers.now) result }
{
    let Some(mut reached) = Reached::from_first(&headers[0]) else {
        return Err(ChainFault::Gap(1));
    };
    for (i, header) in headers[1..].iter().enumerate() {
        let Some(next) = reached.with_medium(header) else {
            return Err(ChainFault::Gap(i as u32 + 2));
        };
        reached = next;
    }
    Ok(reached)
}

/// The plan to restore these media in order, and the log area after them where it is named, up to
/// the commit `until`, or else as far as they reach. A gap goes before a wrong end.
pub fn check(
    headers: &[MediumHeader],
    log: Option<LogLink>,
    until: Option<u64>,
) -> Result<Plan, ChainFault>
    requires some { 0 < length headers.now }
    requires most { length headers.now ≤ 99 }
    ensures { Answers (chain (map link_of headers.now ++ log_part log) until) result }
{
    let reached = reached_by(headers)?;
    let Some(whole) = reached.with_area(log) else {
        return Err(ChainFault::Gap(headers.len() as u32 + 1));
    };
    whole.plan_up_to(until)
}
