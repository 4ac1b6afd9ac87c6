//! A host in memory.
ghost use Rattle.std.specs.Prelude.{◌≡◌, ◌≤◌, ℕ, List, [], length, take, None, IfOk};
ghost use Rattle.mdb_host.specs.Fresh.{IsFresh};
ghost use Rattle.mdb_host.specs.Memory.{AllWhole, image_of, shape, at_first, disk_of, picked};
ghost use Rattle.mdb_host.specs.MemoryLaws.{left_now, sizes_now};

use crate::call::Call;
use crate::devices::Devices;
use crate::faults::rise;
use crate::host::Host;
use crate::keep::{keep, keep_front, keep_idle, keep_tear, keep_text, range_of};
use crate::plan::FaultPlan;
use crate::replay::{replay, zeros_of};
use mdb_model::fault::{Device, Failed, Memory};
use std::alloc::{AllocError, Global};

/// Devices and an output in memory. It keeps all calls, so that it can tell what a crash at any
/// moment may leave. A call that finds no memory to be kept fails.
#[derive(Drop)]
pub struct MemHost {
    alloc: Global,
    // what the devices held before the first call
    start: Devices,
    // what a read gives
    held: Devices,
    calls: Vec<Call>,
    output: Vec<u8>,
    plan: FaultPlan,
    reads: u64,
    faults: u64,
    say_faults: u64,
    ghost seen: { image_of held.slots.items
        ≡ (shape calls.items (at_first (image_of start.slots.items))).seen },
    ghost whole: { AllWhole (image_of start.slots.items) },
    ghost said: { output.items ≡ (shape calls.items (at_first (image_of start.slots.items))).said },
}

impl MemHost {
    // A host that holds these devices, before its first call.
    fn holding(alloc: Global, held: Devices, fails: &[u64]) -> Result<MemHost, AllocError>
        requires { AllWhole (image_of held.slots.items) }
        ensures fresh { IfOk result (λ host. IsFresh (⟦<MemHost as Host>⟧.disk host)
            (image_of held.slots.items)) }
        ensures fails { IfOk result (λ host. host.plan.fails.items ≡ fails.now) }
        ensures reads { IfOk result (λ host. host.reads ≡ 0) }
        ensures faults { IfOk result (λ host. ⟦<MemHost as Host>⟧.faults host ≡ 0) }
        ensures say_faults { IfOk result (λ host. ⟦<MemHost as Host>⟧.say_faults host ≡ 0) }
    {
        let start = held.copy(alloc)?;
        let plan = FaultPlan::new(alloc, fails)?;
        Ok(MemHost {
            alloc,
            start,
            held,
            calls: Vec::new(alloc),
            output: Vec::new(alloc),
            plan,
            reads: 0,
            faults: 0,
            say_faults: 0,
        })
    }
}

impl MemHost {
    ghost use Rattle.mdb_host.specs.Picks.{image_at, reads_of, fails_of};

    /// No device is there and nothing was said. `fails` lists the numbers, from 1 and over all
    /// calls but `size`, of the calls that are to fail. Such a call is kept like others; a `write`
    /// then leaves its range unsynced with the bytes that a read gave, a `say` adds the first half
    /// of its text to the output, and every other call leaves what was.
    pub fn new(alloc: Global, fails: &[u64]) -> Result<MemHost, Memory>
        ensures fresh { IfOk result (λ host. IsFresh (⟦<MemHost as Host>⟧.disk host)
            (λ device. None)) }
        ensures fails { IfOk result (λ host. fails_of host ≡ fails.now) }
        ensures reads { IfOk result (λ host. reads_of host ≡ 0) }
        ensures faults { IfOk result (λ host. ⟦<MemHost as Host>⟧.faults host ≡ 0) }
        ensures say_faults { IfOk result (λ host. ⟦<MemHost as Host>⟧.say_faults host ≡ 0) }
    {
        let Ok(none) = Devices::new(alloc) else {
            return Err(Memory);
        };
        match MemHost::holding(alloc, none, fails) {
            Ok(host) => Ok(host),
            Err(_) => Err(Memory),
        }
    }

    // The devices as a crash after the first calls leaves them.
    fn torn(&self, alloc: Global, at: u64, pick: u64) -> Result<Devices, AllocError>
        requires { at ≤ length self.now.calls.items }
        ensures { IfOk result (λ devices. image_of devices.slots.items
            ≡ picked pick 0 (take at self.now.calls.items) (image_of self.now.start.slots.items)) }
    {
        let mut devices = self.start.copy(alloc)?;
        replay(&mut devices, alloc, &self.calls[..at as usize], pick)?;
        Ok(devices)
    }

    /// A host with no output and no call that is to fail, which holds what a crash at moment `at`
    /// may leave. The k-th range, from 0 in order of writing, that was then unsynced on its device
    /// holds by digit `k mod 32` of `pick` in base 4: 0 its old bytes, 1 its new bytes, 2 only
    /// 0x4F, 3 only 0x00.
    pub fn image(&self, alloc: Global, at: u64, pick: u64) -> Result<MemHost, Memory>
        requires { at ≤ (⟦<MemHost as Host>⟧.disk self.now).now }
        ensures left { IfOk result (λ host. (⟦<MemHost as Host>⟧.disk self.now).may_leave at
            (⟦<MemHost as Host>⟧.disk host).seen) }
        ensures exact { IfOk result (λ host. (⟦<MemHost as Host>⟧.disk host).seen
            ≡ image_at self.now at pick) }
        ensures fresh { IfOk result (λ host. IsFresh (⟦<MemHost as Host>⟧.disk host)
            (⟦<MemHost as Host>⟧.disk host).seen) }
        ensures fails { IfOk result (λ host. fails_of host ≡ []) }
        ensures reads { IfOk result (λ host. reads_of host ≡ 0) }
        ensures faults { IfOk result (λ host. ⟦<MemHost as Host>⟧.faults host ≡ 0) }
        ensures say_faults { IfOk result (λ host. ⟦<MemHost as Host>⟧.say_faults host ≡ 0) }
    {
        let Ok(devices) = self.torn(alloc, at, pick) else {
            return Err(Memory);
        };
        match MemHost::holding(alloc, devices, &[]) {
            Ok(host) => Ok(host),
            Err(_) => Err(Memory),
        }
    }

    /// What was said.
    pub fn output(&self) -> &[u8]
        ensures { result.now ≡ (⟦<MemHost as Host>⟧.disk self.now).said
            (⟦<MemHost as Host>⟧.disk self.now).now }
    {
        &self.output
    }

    /// The clock.
    pub fn now(&self) -> u64
        ensures { result ≡ (⟦<MemHost as Host>⟧.disk self.now).now }
    {
        self.calls.len() as u64
    }

    /// The number of calls of `read` so far.
    pub fn reads(&self) -> u64
        ensures { result ≡ reads_of self.now }
    {
        self.reads
    }
}

impl Host for MemHost {
    ghost use Rattle.std.specs.Prelude.{◌+◌, ◌-◌, ◌*◌, ◌^◌, ◌++◌, Some, replicate, min, OnOk};
    ghost use Rattle.mdb_model.specs.Causes.{HasCause};
    ghost use Rattle.mdb_host.specs.Disk.{
      Torn,
      Has,
      Agree,
      Calls,
      Says,
      Creates,
      Removes,
      Synced,
      IsWithin,
      IsThere,
    };
    ghost use Rattle.mdb_host.specs.Picks.{host_disk, host_faults, host_say_faults, reads_of};

    ghost tells = { Unit {0} };

    ghost disk = { λ m. disk_of (image_of m.start.slots.items) m.calls.items };

    ghost faults = { λ m. m.faults };

    ghost say_faults = { λ m. m.say_faults };

    ghost seen_left = { λ m told. left_now (image_of m.start.slots.items) m.calls.items };

    ghost sizes = { λ m image told left. sizes_now (image_of m.start.slots.items) m.calls.items
        image left };

    fn size(&self, device: Device) -> Option<u64> {
        match self.held.size(device) {
            Some(bytes) => Some((bytes / 8192) as u64),
            None => None,
        }
    }

    fn read(&mut self, device: Device, at: u64, into: &mut [u8]) -> Result<(), Failed>
        requires bounded { length into.old ≤ 8192 }
        requires within { IsWithin (host_disk self.old).seen device at (length into.old) }
        ensures bytes { OnOk result (Has (host_disk self.old).seen device at into.new) }
        ensures calls { Calls (host_disk self.old) (host_disk self.new) Agree }
        ensures tick { OnOk result ((host_disk self.new).now ≡ (host_disk self.old).now + 1) }
        ensures cause { HasCause (host_faults self.old) (host_faults self.new) result }
        ensures say_faults { host_say_faults self.new ≡ host_say_faults self.old }
        ensures reads { reads_of self.new ≡ min (reads_of self.old + 1) (2 ^ 64 - 1) }
    {
        self.reads = self.reads.saturating_add(1);
        if self.plan.is_due() {
            keep_idle(&mut self.calls);
            return Err(rise(&mut self.faults));
        }
        let Ok(()) = keep(&mut self.calls, Call::Idle) else {
            return Err(rise(&mut self.faults));
        };
        self.held.read(device, at, into);
        Ok(())
    }

    fn write(&mut self, device: Device, at: u64, from: &[u8]) -> Result<(), Failed>
        requires bounded { length from.now ≤ 8192 }
        requires within { IsWithin (host_disk self.old).seen device at (length from.now) }
        ensures calls { Calls (host_disk self.old) (host_disk self.new)
            (Torn device at (length from.now)) }
        ensures written { OnOk result (Has (host_disk self.new).seen device at from.now) }
        ensures tick { OnOk result ((host_disk self.new).now ≡ (host_disk self.old).now + 1) }
        ensures cause { HasCause (host_faults self.old) (host_faults self.new) result }
        ensures say_faults { host_say_faults self.new ≡ host_say_faults self.old }
        ensures reads { reads_of self.new ≡ reads_of self.old }
    {
        if self.plan.is_due() {
            keep_tear(&mut self.calls, self.alloc, device, at, from);
            return Err(rise(&mut self.faults));
        }
        let Ok(range) = range_of(self.alloc, device, at, from) else {
            return Err(rise(&mut self.faults));
        };
        let Ok(()) = keep(&mut self.calls, Call::Wrote(range)) else {
            return Err(rise(&mut self.faults));
        };
        self.held.write(device, at, from);
        Ok(())
    }

    fn sync(&mut self, device: Device) -> Result<(), Failed>
        requires { IsThere (host_disk self.old).seen device }
        ensures calls { Calls (host_disk self.old) (host_disk self.new) Agree }
        ensures synced { OnOk result (Synced (host_disk self.new) device) }
        ensures tick { OnOk result ((host_disk self.new).now ≡ (host_disk self.old).now + 1) }
        ensures cause { HasCause (host_faults self.old) (host_faults self.new) result }
        ensures say_faults { host_say_faults self.new ≡ host_say_faults self.old }
        ensures reads { reads_of self.new ≡ reads_of self.old }
    {
        if self.plan.is_due() {
            keep_idle(&mut self.calls);
            return Err(rise(&mut self.faults));
        }
        let Ok(()) = keep(&mut self.calls, Call::Synced(device)) else {
            return Err(rise(&mut self.faults));
        };
        Ok(())
    }

    fn make(&mut self, device: Device, pages: u32) -> Result<(), Failed>
        requires { (host_disk self.old).seen device ≡ None }
        ensures calls { Calls (host_disk self.old) (host_disk self.new)
            (Creates device (8192 * pages)) }
        ensures made { OnOk result
            ((host_disk self.new).seen device ≡ Some (replicate (8192 * pages) 0)) }
        ensures tick { OnOk result ((host_disk self.new).now ≡ (host_disk self.old).now + 1) }
        ensures cause { HasCause (host_faults self.old) (host_faults self.new) result }
        ensures say_faults { host_say_faults self.new ≡ host_say_faults self.old }
        ensures reads { reads_of self.new ≡ reads_of self.old }
    {
        if self.plan.is_due() {
            keep_idle(&mut self.calls);
            return Err(rise(&mut self.faults));
        }
        let Ok(bytes) = zeros_of(self.alloc, pages) else {
            return Err(rise(&mut self.faults));
        };
        let Ok(()) = keep(&mut self.calls, Call::Made(device, pages)) else {
            return Err(rise(&mut self.faults));
        };
        self.held.set(device, Some(bytes));
        Ok(())
    }

    fn remove(&mut self, device: Device) -> Result<(), Failed>
        requires { IsThere (host_disk self.old).seen device }
        ensures calls { Calls (host_disk self.old) (host_disk self.new) (Removes device) }
        ensures removed { OnOk result ((host_disk self.new).seen device ≡ None) }
        ensures tick { OnOk result ((host_disk self.new).now ≡ (host_disk self.old).now + 1) }
        ensures cause { HasCause (host_faults self.old) (host_faults self.new) result }
        ensures say_faults { host_say_faults self.new ≡ host_say_faults self.old }
        ensures reads { reads_of self.new ≡ reads_of self.old }
    {
        if self.plan.is_due() {
            keep_idle(&mut self.calls);
            return Err(rise(&mut self.faults));
        }
        let Ok(()) = keep(&mut self.calls, Call::Removed(device)) else {
            return Err(rise(&mut self.faults));
        };
        self.held.set(device, None);
        Ok(())
    }

    fn say(&mut self, text: &[u8]) -> Result<(), Failed>
        ensures says { Says (host_disk self.old) (host_disk self.new) text.now }
        ensures said { OnOk result ((host_disk self.new).said (host_disk self.new).now
            ≡ (host_disk self.old).said (host_disk self.old).now ++ text.now) }
        ensures tick { OnOk result ((host_disk self.new).now ≡ (host_disk self.old).now + 1) }
        ensures cause { HasCause (host_say_faults self.old) (host_say_faults self.new) result }
        ensures faults { host_faults self.new ≡ host_faults self.old }
        ensures reads { reads_of self.new ≡ reads_of self.old }
    {
        if self.plan.is_due() {
            let front = &text[..text.len() / 2];
            keep_front(&mut self.calls, &mut self.output, self.alloc, front);
            return Err(rise(&mut self.say_faults));
        }
        let Ok(()) = keep_text(&mut self.calls, &mut self.output, self.alloc, text) else {
            return Err(rise(&mut self.say_faults));
        };
        Ok(())
    }
}
