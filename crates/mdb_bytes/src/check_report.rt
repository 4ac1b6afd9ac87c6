//! What a check of a database reports, as bytes.
ghost use Rattle.std.specs.Prelude.{◌≡◌, map, length};
ghost use Rattle.mdb_bytes.specs.Fields.{Spells, Decodes};
ghost use Rattle.mdb_bytes.specs.Parts.{field_of, KeepsLimits};
ghost use Rattle.mdb_bytes.specs.MediumPages.{device_kind, device_number, device_of, rule_number, rule_of, check_report_fields, check_report_format};

use crate::numbers::{byte_at, u16_at, u32_at};
use crate::parts::{Part, parts_fit, write_parts};
use crate::record::{Record, decode};
use mdb_model::fault::{Damage, Device, Rule};

fn kind_of_device(device: Device) -> u8
    ensures { result ≡ device_kind device }
{
    match device {
        Device::Data(_) => 1,
        Device::Log => 2,
        Device::Medium(_) => 3,
    }
}

fn number_of_device(device: Device) -> u8
    ensures { result ≡ device_number device }
{
    match device {
        Device::Data(number) | Device::Medium(number) => number,
        Device::Log => 0,
    }
}

fn device_of_numbers(kind: u8, number: u8) -> Device
    ensures { result ≡ device_of kind number }
{
    if kind == 1 {
        return Device::Data(number);
    }
    if kind == 2 {
        return Device::Log;
    }
    Device::Medium(number)
}

fn number_of_rule(rule: Rule) -> u16
    ensures { result ≡ rule_number rule }
{
    match rule {
        Rule::Missing => 1,
        Rule::Size => 2,
        Rule::NoSlot => 3,
        Rule::ConverterRoot => 4,
        Rule::ConverterLeaf => 5,
        Rule::Page => 6,
        Rule::Block => 7,
        Rule::Tree => 8,
        Rule::Undo => 9,
        Rule::Group => 10,
        Rule::Header => 11,
        Rule::Content => 12,
        Rule::Room => 13,
    }
}

fn rule_of_number(number: u16) -> Rule
    ensures { result ≡ rule_of number }
{
    match number {
        1 => Rule::Missing,
        2 => Rule::Size,
        3 => Rule::NoSlot,
        4 => Rule::ConverterRoot,
        5 => Rule::ConverterLeaf,
        6 => Rule::Page,
        7 => Rule::Block,
        8 => Rule::Tree,
        9 => Rule::Undo,
        10 => Rule::Group,
        11 => Rule::Header,
        12 => Rule::Content,
        _ => Rule::Room,
    }
}

fn parts(value: &Damage) -> [Part; 5]
    ensures { map field_of result ≡ check_report_fields value.now }
{
    [
        Part::Byte(kind_of_device(value.device)),
        Part::Byte(number_of_device(value.device)),
        Part::Two(number_of_rule(value.rule)),
        Part::Four(value.page),
        Part::Zeros(8),
    ]
}

impl Record for Damage {
    ghost use Rattle.mdb_bytes.specs.MediumPages.{check_report_format};

    ghost format = { check_report_format };

    ghost size = { 16 };

    fn len() -> usize {
        16
    }

    fn read(bytes: &[u8]) -> Self {
        Damage {
            device: device_of_numbers(byte_at(bytes, 0), byte_at(bytes, 1)),
            page: u32_at(bytes, 4),
            rule: rule_of_number(u16_at(bytes, 2)),
        }
    }

    fn fits(&self) -> bool {
        match self.device {
            Device::Data(number) => number >= 1 && number <= 8,
            Device::Log => true,
            Device::Medium(number) => number >= 1 && number <= 99,
        }
    }

    fn has_room(&self) -> bool {
        parts_fit(&parts(self))
    }

    fn write(&self, into: &mut [u8]) {
        write_parts(into, &parts(self));
    }
}

/// The 16 bytes of a report.
pub fn encode_check_report(value: &Damage, into: &mut [u8])
    requires exact { length into.old ≡ 16 }
    requires keeps { KeepsLimits check_report_format value.now }
    ensures { Spells check_report_format value.now into.new }
{
    value.write(into);
}

/// The report of such bytes.
pub fn decode_check_report(bytes: &[u8]) -> Option<Damage>
    ensures { Decodes check_report_format bytes.now result }
{
    decode::<Damage, 16>(bytes)
}
