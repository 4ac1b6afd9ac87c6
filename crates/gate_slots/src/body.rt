//! The records that slots hold.
ghost use Rattle.std.specs.Prelude.{◌≡◌, length, Some, IfSome};
ghost use Rattle.mdb_model.specs.declared.fault.Device.{Device};
ghost use Rattle.mdb_bytes.specs.SlotRecords.{slot_len};
ghost use Rattle.gate_slots.specs.Slots.{slot_number, decoded_body, KeepsBody, IsFor};

use mdb_bytes::{
    LogInfo, RestartRecord, decode_log_info, decode_restart_record, encode_log_info,
    encode_restart_record,
};
use mdb_model::fault::Device;

/// A record that a slot holds.
#[derive(Drop)]
pub enum SlotBody {
    Restart(RestartRecord),
    Log(LogInfo),
}

impl SlotBody {
    /// Its slot number, by which the greater one counts.
    pub fn number(&self) -> u64
        ensures { result ≡ slot_number self.now }
    {
        match self {
            SlotBody::Restart(record) => record.slot,
            SlotBody::Log(info) => info.slot,
        }
    }

    // Its bytes.
    pub(crate) fn encode(&self, into: &mut [u8])
        requires exact { length into.old ≡ slot_len }
        requires keeps { KeepsBody self.now }
        ensures { (device : Device) → IsFor device self.now
            → decoded_body device into.new ≡ Some self.now }
    {
        match self {
            SlotBody::Restart(record) => encode_restart_record(record, into),
            SlotBody::Log(info) => encode_log_info(info, into),
        }
    }
}

// The record of a slot of this device that the bytes spell.
pub(crate) fn decode_body(device: Device, bytes: &[u8]) -> Option<SlotBody>
    ensures value { result ≡ decoded_body device bytes.now }
    ensures kept { IfSome result (λ body. IsFor device body × KeepsBody body) }
{
    match device {
        Device::Data(_) => Some(SlotBody::Restart(decode_restart_record(bytes)?)),
        Device::Log => Some(SlotBody::Log(decode_log_info(bytes)?)),
        Device::Medium(_) => None,
    }
}
