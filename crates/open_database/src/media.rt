//! Lines on media: they are made and removed beside the database, and do nothing to its rows.
ghost use Rattle.std.specs.Prelude.{◌≡◌, ◌<◌, ◌≤◌, List, IsTrue, true, Err, IfOk, IfSome};
ghost use Rattle.mdb_model.specs.Answers.{plain};
ghost use Rattle.mdb_model.specs.Causes.{Rose};
ghost use Rattle.mdb_model.specs.Script.{is_medium, is_within};
ghost use Rattle.mdb_model.specs.Stages.{is_built};
ghost use Rattle.mdb_model.specs.Worlds.{World};
ghost use Rattle.mdb_model.specs.declared.fault.PageFault.TheVariants.{Failed};
ghost use Rattle.mdb_model.specs.declared.script.Command.TheVariants.{MediumPut, MediumDelete};
ghost use Rattle.mdb_host.specs.Disk.{Disk, Keeps};
ghost use Rattle.open_database.specs.Media.{ReadsMedium};
ghost use Rattle.open_database.specs.Serving.{IsSoundDatabase, FitsOpen, LineDoes};
ghost use Rattle.open_database.specs.Taking.{TakesOpen};

use crate::database::Database;
use live_area::{a_world_that_stands, media_come_and_go_beside, saying_keeps_serving};
use mdb_host::{Device, Host};
use mdb_model::fault::PageFault;
use mdb_model::script::{MediumLine, Refusal, Reply};
use medium_file::list_next;

impl Database {
    /// Makes a blank medium of so many pages, where there is none of that number. After a fault it
    /// is there or not, and the database has to be given up.
    pub fn put_medium<H: Host>(
        &self,
        host: &mut H,
        medium: u8,
        pages: u32,
    ) -> Result<Reply, PageFault>
        requires medium { IsTrue (is_medium medium) }
        requires pages { IsTrue (is_within 2 131072 pages) }
        requires sound { IsSoundDatabase H.tells self.now (H.disk host.old) }
        ensures takes { TakesOpen H.tells (H.disk host.old) (H.disk host.new) (H.faults host.old)
            (H.faults host.new) self.now self.now result }
        ensures does { is_built (MediumPut medium pages) ≡ true → H.tells → (ws : List World)
            → FitsOpen H.tells self.now (H.disk host.old) ws
            → LineDoes H.tells (H.disk host.old) (H.disk host.new) ws (MediumPut medium pages)
            plain self.now result }
        ensures say_faults { H.say_faults host.new ≡ H.say_faults host.old }
    {
        // Laws that the promise stands on.
        media_come_and_go_beside::<H>();
        let device = Device::Medium(medium);
        if host.size(device).is_some() {
            return Ok(Reply::Refused(Refusal::MediumUsed));
        }
        match host.make(device, pages) {
            Ok(()) => Ok(Reply::MediumMade),
            Err(_) => Err(PageFault::Failed),
        }
    }

    /// Removes a medium, whatever it holds. After a fault it is there or not, and the database has
    /// to be given up.
    pub fn delete_medium<H: Host>(&self, host: &mut H, medium: u8) -> Result<Reply, PageFault>
        requires medium { IsTrue (is_medium medium) }
        requires sound { IsSoundDatabase H.tells self.now (H.disk host.old) }
        ensures takes { TakesOpen H.tells (H.disk host.old) (H.disk host.new) (H.faults host.old)
            (H.faults host.new) self.now self.now result }
        ensures does { is_built (MediumDelete medium) ≡ true → H.tells → (ws : List World)
            → FitsOpen H.tells self.now (H.disk host.old) ws
            → LineDoes H.tells (H.disk host.old) (H.disk host.new) ws (MediumDelete medium) plain
            self.now result }
        ensures say_faults { H.say_faults host.new ≡ H.say_faults host.old }
    {
        // Laws that the promise stands on.
        a_world_that_stands();
        media_come_and_go_beside::<H>();
        let device = Device::Medium(medium);
        if host.size(device).is_none() {
            return Ok(Reply::Refused(Refusal::NoMedium));
        }
        match host.remove(device) {
            Ok(()) => Ok(Reply::MediumDeleted),
            Err(_) => Err(PageFault::Failed),
        }
    }

    /// What a list shows of the medium after a number, or none where there is no more. After a fault
    /// the database has to be given up.
    pub fn medium_next<H: Host>(
        &self,
        host: &mut H,
        after: u8,
    ) -> Result<Option<MediumLine>, PageFault>
        requires sound { IsSoundDatabase H.tells self.now (H.disk host.old) }
        ensures sound { IsSoundDatabase H.tells self.now (H.disk host.new) }
        ensures reads { H.tells → (ws : List World)
            → (fit : FitsOpen H.tells self.now (H.disk host.old) ws)
            → ReadsMedium H.tells (H.disk host.old) (H.disk host.new) fit.w ws self.now after
            result }
        ensures range { IfOk result (λ found. IfSome found
            (λ line. (after < line.medium) × (line.medium ≤ 99))) }
        ensures keeps { H.tells → Keeps (H.disk host.old) (H.disk host.new) }
        ensures later { H.faults host.old ≤ H.faults host.new }
        ensures cause { result ≡ Err Failed → Rose (H.faults host.old) (H.faults host.new) }
        ensures say_faults { H.say_faults host.new ≡ H.say_faults host.old }
    {
        // Laws that the promise stands on.
        a_world_that_stands();
        media_come_and_go_beside::<H>();
        saying_keeps_serving::<H>();
        list_next(host, after, None)
    }
}
