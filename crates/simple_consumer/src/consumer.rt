ghost use Rattle.std.specs.Prelude.{◌≡◌, ◌<◌, ◌≤◌, length, take, drop, is_some, option_map, IfOk, IfSome, IfNone};
ghost use Rattle.rtp_packet.specs.Packet.{Fields, IsPacket};
ghost use Rattle.rtp_packet.specs.Fault.{Parses};
ghost use Rattle.seq_manager.specs.Numbering.{output_number};
ghost use Rattle.simple_consumer.specs.Sending.{offer, sending_of, ssrc_of, takes, passed, behind_packet, behind_flags, emitted_fields};

use crate::packet::{SentFields, write};
use crate::tables::{TYPES, exts_of, types_of};
use ms_base::NoMemory;
use rtp_extension::{Flags, IdMap, IdSet, Mapped};
use rtp_packet::{Packet, View, fields_by_places};
use rtp_params::Params;
use seq_manager::SeqManager;
use std::alloc::Global;
use std::marker::Model;

/// What is sent on of the packets of one mapped SSRC. Contracts see it as the record of what its calls leave.
#[derive(Debug, Drop)]
pub struct SimpleConsumer {
    params: Params,
    mapped: u32,
    flags: Flags,
    // Whether this stretch has begun.
    begun: bool,
    numbers: SeqManager,
    // The SSRC of its one encoding.
    ssrc: u32,
    // For each payload type whether the parameters have it.
    types: [bool; TYPES],
    // The ids of the parameters' header extensions.
    exts: IdSet,
}

impl Model for SimpleConsumer {
    ghost use Rattle.simple_consumer.specs.Sending.{Sending};
    ghost use Rattle.simple_consumer.specs.Tables.{AreTables};

    ghost Value = { Sending };

    ghost view = { λ c. record {
      params = c.params;
      mapped = c.mapped;
      flags = c.flags;
      begun = c.begun;
      numbering = c.numbers;
    } };

    ghost invariant = { λ c. AreTables c.params c.ssrc c.types c.exts };
}

impl SimpleConsumer {
    /// A Consumer of what is mapped to this SSRC, which has sent nothing yet. The parameters are what its receiver gets:
    /// one encoding, the payload types and the header extensions.
    pub fn new(
        alloc: Global,
        params: &Params,
        mapped: u32,
        flags: Flags,
    ) -> Result<SimpleConsumer, NoMemory>
        requires { length params.now.encodings ≡ 1 }
        ensures { IfOk result (λ c. c ≡ sending_of params.now mapped flags) }
    {
        let params = params.copy(alloc)?;
        let ssrc = own_ssrc(&params);
        let types = types_of(&params);
        let exts = exts_of(&params);
        Ok(SimpleConsumer {
            params,
            mapped,
            flags,
            begun: false,
            numbers: SeqManager::new(),
            ssrc,
            types,
            exts,
        })
    }

    /// The SSRC of what it sends on.
    pub fn mapped(&self) -> u32
        ensures { result ≡ self.now.mapped }
    {
        self.mapped
    }

    /// What its activity rests on.
    pub fn flags(&self) -> Flags
        ensures { result ≡ self.now.flags }
    {
        self.flags
    }

    /// Sets what its activity rests on. Where it has become active a further stretch begins.
    pub fn set_flags(&mut self, flags: Flags)
        ensures { self.new ≡ behind_flags self.old flags }
    {
        if flags.is_active() && !self.flags.is_active() {
            self.begun = false;
            self.numbers.sync();
        }
        self.flags = flags;
    }

    /// Writes what is sent on of a packet over the front of `into`, and gives its length: the packet with the next output
    /// number, the Consumer's SSRC, the mapped payload type, and of the elements of its header extension those whose new
    /// id the Consumer's parameters have. `mapped` and `ids` are what the Producer says of the packet. `None` comes
    /// exactly where nothing is sent on: the Consumer isn't active, the mapped SSRC is another, its parameters lack the
    /// mapped payload type, or the packet is of video and no key frame has started in this stretch. Then nothing changes.
    /// No memory is taken.
    pub fn pass(
        &mut self,
        mapped: Mapped,
        ids: &IdMap,
        packet: &[u8],
        into: &mut [u8],
    ) -> Option<usize>
        requires parses { Parses packet.now }
        requires payload_type { mapped.payload_type < 128 }
        requires room { length packet.now ≤ length into.old }
        ensures when { is_some result ≡ takes self.old mapped }
        ensures packet { option_map (λ n. take n into.new) result ≡ passed self.old (offer mapped ids.now packet.now) }
        ensures state { self.new ≡ behind_packet self.old (offer mapped ids.now packet.now) }
        ensures no_longer { IfSome result (λ n. n ≤ length packet.now) }
        // It is a packet: with these fields, and all others as they were.
        ensures fields { (fields : Fields) → IsPacket fields packet.now → IfSome result (λ n.
            IsPacket (emitted_fields self.old.params (offer mapped ids.now packet.now) (output_number self.old.numbering fields.seq) fields) (take n into.new)) }
        ensures rest { IfSome result (λ n. drop n into.new ≡ drop n into.old) }
        ensures untouched { IfNone result (into.new ≡ into.old) }
    {
        match Packet::parse(packet) {
            Ok(view) => self.pass_view(mapped, ids, &view, packet, into),
            Err(_) => unreachable!(),
        }
    }

    /// The same of a packet that was read already: who has several Consumers reads it once.
    pub fn pass_view(
        &mut self,
        mapped: Mapped,
        ids: &IdMap,
        view: &View<'_>,
        packet: &[u8],
        into: &mut [u8],
    ) -> Option<usize>
        requires read { IsPacket view.now packet.now }
        requires payload_type { mapped.payload_type < 128 }
        requires room { length packet.now ≤ length into.old }
        ensures when { is_some result ≡ takes self.old mapped }
        ensures packet { option_map (λ n. take n into.new) result ≡ passed self.old (offer mapped ids.now packet.now) }
        ensures state { self.new ≡ behind_packet self.old (offer mapped ids.now packet.now) }
        ensures no_longer { IfSome result (λ n. n ≤ length packet.now) }
        // It is a packet: with these fields, and all others as they were.
        ensures fields { (fields : Fields) → IsPacket fields packet.now → IfSome result (λ n.
            IsPacket (emitted_fields self.old.params (offer mapped ids.now packet.now) (output_number self.old.numbering fields.seq) fields) (take n into.new)) }
        ensures rest { IfSome result (λ n. drop n into.new ≡ drop n into.old) }
        ensures untouched { IfNone result (into.new ≡ into.old) }
    {
        fields_by_places();
        if !self.takes(&mapped) {
            return None;
        }
        self.begun = true;
        let fields = SentFields {
            number: self.numbers.input(view.seq()),
            ssrc: self.ssrc,
            payload_type: mapped.payload_type,
        };
        Some(write(ids, &self.exts, view, packet, fields, into))
    }

    // Whether a packet is sent on.
    fn takes(&self, mapped: &Mapped) -> bool
        requires { mapped.now.payload_type < 128 }
        ensures { result ≡ takes self.now mapped.now }
    {
        self.flags.is_active()
            && mapped.ssrc == self.mapped
            && self.types[usize::from(mapped.payload_type)]
            && (self.begun || !mapped.video || mapped.key)
    }
}

// The SSRC of the one encoding.
fn own_ssrc(params: &Params) -> u32
    requires { length params.now.encodings ≡ 1 }
    ensures { result ≡ ssrc_of params.now }
{
    params.encodings.as_slice()[0].ssrc
}
