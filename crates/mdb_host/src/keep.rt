//! Keeping calls. Where there is no memory, nothing is kept.
ghost use Rattle.std.specs.Prelude.{◌≡◌, ◌++◌, ◌∷◌, [], IfOk, OnOk, OnErr};
ghost use Rattle.mdb_host.specs.Memory.{RangeOf, KeptOrNot, ToreOrNot, SaidIs, SaidOrNot};
ghost use Rattle.mdb_host.specs.declared.call.Call.TheVariants.{Idle};

use crate::call::{Call, Range};
use mdb_model::fault::Device;
use std::alloc::{AllocError, Global};

pub fn keep(calls: &mut Vec<Call>, call: Call) -> Result<(), AllocError>
    ensures kept { OnOk result (calls.new.items ≡ calls.old.items ++ call ∷ []) }
    ensures err { OnErr result (calls.new.items ≡ calls.old.items) }
{
    calls.push(call)?;
    Ok(())
}

/// Keeps a call that failed and changed nothing.
pub fn keep_idle(calls: &mut Vec<Call>)
    ensures { KeptOrNot calls.old.items calls.new.items Idle }
{
    let _ = calls.push(Call::Idle);
}

pub fn range_of(alloc: Global, device: Device, at: u64, from: &[u8]) -> Result<Range, AllocError>
    ensures { IfOk result (λ range. RangeOf device at from.now range) }
{
    let bytes = Vec::from_slice(alloc, from)?;
    Ok(Range { device, at, bytes })
}

/// Keeps a write that failed.
pub fn keep_tear(calls: &mut Vec<Call>, alloc: Global, device: Device, at: u64, from: &[u8])
    ensures { ToreOrNot calls.old.items calls.new.items device at from.now }
{
    let Ok(range) = range_of(alloc, device, at, from) else {
        return;
    };
    let _ = calls.push(Call::Tore(range));
}

/// Keeps a text, and puts it to the output.
pub fn keep_text(
    calls: &mut Vec<Call>,
    output: &mut Vec<u8>,
    alloc: Global,
    text: &[u8],
) -> Result<(), AllocError>
    ensures kept { OnOk result (SaidIs calls.old.items calls.new.items output.old.items
        output.new.items text.now) }
    ensures calls { OnErr result (calls.new.items ≡ calls.old.items) }
    ensures output { OnErr result (output.new.items ≡ output.old.items) }
{
    let kept = Vec::from_slice(alloc, text)?;
    let said = output.len();
    output.extend_from_slice(text)?;
    let Ok(()) = keep(calls, Call::Said(kept)) else {
        output.truncate(said);
        return Err(AllocError);
    };
    Ok(())
}

/// The same of a text of which no more is said.
pub fn keep_front(calls: &mut Vec<Call>, output: &mut Vec<u8>, alloc: Global, text: &[u8])
    ensures { SaidOrNot calls.old.items calls.new.items output.old.items output.new.items text.now }
{
    let _ = keep_text(calls, output, alloc, text);
}
