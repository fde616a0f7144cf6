//! A payload that lies behind the room for its length becomes a frame.

ghost use Rattle.std.specs.Prelude.{◌≡◌, ◌+◌, ◌≤◌, ◌<◌, ◌^◌, ◌++◌, length, take, drop};
ghost use Rattle.byteorder.specs.Endian.{little_bytes};
ghost use Rattle.channel_frames.specs.Frames.{frame};
ghost use Rattle.channel_msgs.specs.Packet.{packet_payload};
ghost use Rattle.worker_requests.specs.declared.notice.WorkerNotice.TheVariants.{TupleLearnt};
ghost use Rattle.worker_requests.specs.Said.{notice_payload};
ghost use Rattle.worker_engine.specs.Packets.{max_packet};

use byteorder::{ByteOrder, LittleEndian};
use channel_msgs::{PACKET_HEAD, write_packet_head};
use ms_base::{Id, Tuple};
use worker_requests::{TUPLE_NOTICE, write_tuple_notice};

/// How many bytes of a frame come before its payload: its length.
const FRAME_LENGTH: usize = 4;

/// How many bytes come before a packet in the frame that it goes out in.
pub(crate) const FRAME_HEAD: usize = FRAME_LENGTH + PACKET_HEAD;

/// Puts what comes before a packet for this id in front of one that lies behind the room for it, and gives the length
/// of the frame.
pub(crate) fn frame_packet(id: Id, packet_len: usize, buffer: &mut [u8]) -> usize
    requires limit { packet_len ≤ max_packet }
    requires room { FRAME_HEAD + packet_len ≤ length buffer.old }
    ensures frame { take result buffer.new ≡ frame (packet_payload id (take packet_len (drop FRAME_HEAD buffer.old))) }
    ensures within { result ≤ length buffer.old }
{
    let (prefix, payload) = buffer.split_at_mut(FRAME_LENGTH);
    LittleEndian::write_u32(prefix, (PACKET_HEAD + packet_len) as u32);
    write_packet_head(id, payload);
    FRAME_HEAD + packet_len
}

/// Writes the frame of the notice of a tuple over the front of the buffer, and gives its length.
pub(crate) fn frame_tuple(transport: Id, tuple: Tuple, buffer: &mut [u8]) -> usize
    requires { FRAME_LENGTH + TUPLE_NOTICE ≤ length buffer.old }
    ensures frame { take result buffer.new ≡ frame (notice_payload (TupleLearnt transport tuple)) }
    ensures within { result ≤ length buffer.old }
{
    let (prefix, payload) = buffer.split_at_mut(FRAME_LENGTH);
    let length = write_tuple_notice(transport, tuple, payload);
    LittleEndian::write_u32(prefix, length as u32);
    FRAME_LENGTH + length
}
