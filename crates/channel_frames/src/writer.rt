ghost use Rattle.std.specs.Prelude.{◌≡◌, ◌≤◌, ◌<◌, ◌↔◌, ◌++◌, length, Err, IsOkUnless, OnOk, OnErr};
ghost use Rattle.channel_frames.specs.Frames.{max_payload, frame};
ghost use Rattle.channel_frames.specs.declared.fault.FrameFault.TheVariants as fault;

use crate::fault::FrameFault;
use crate::parts::{HEADER, MAX_PAYLOAD};
use byteorder::{ByteOrder, LittleEndian};
use ms_base::{Bytes, NoMemory};
use std::alloc::Global;

/// Appends the frame of a payload: its length in four bytes, least significant first, and its bytes. Memory is
/// taken by `into`, from its own allocator.
///
/// # Errors
///
/// `TooBig` where the payload is over the limit, and else `NoMemory`. `into` is then as it was.
pub fn write_frame(_alloc: Global, payload: &[u8], into: &mut Bytes) -> Result<(), FrameFault>
    ensures ok { OnOk result (into.new ≡ into.old ++ frame payload.now) }
    ensures err { OnErr result (into.new ≡ into.old) }
    ensures too_big { (result ≡ Err fault.TooBig) ↔ (max_payload < length payload.now) }
    ensures memory { length payload.now ≤ max_payload → IsOkUnless result fault.NoMemory }
{
    if payload.len() > MAX_PAYLOAD {
        return Err(FrameFault::TooBig);
    }
    let mut header = [0; HEADER];
    LittleEndian::write_u32(&mut header, payload.len() as u32);
    append_both(&header, payload, into)?;
    Ok(())
}

// Appends two parts, both or none.
fn append_both(first: &[u8], second: &[u8], into: &mut Bytes) -> Result<(), NoMemory>
    ensures ok { OnOk result (into.new ≡ into.old ++ (first.now ++ second.now)) }
    ensures err { OnErr result (into.new ≡ into.old) }
{
    let before = into.len();
    into.extend_from_slice(first)?;
    let appended = into.extend_from_slice(second);
    if appended.is_err() {
        into.truncate(before);
    }
    appended
}
