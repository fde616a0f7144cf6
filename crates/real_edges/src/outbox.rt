ghost use Rattle.std.specs.Prelude.{◌≡◌, ℕ, take, OnOk, OnErr};
ghost use Rattle.std.specs.Io.KnownBytes.{Appends};
ghost use Rattle.ms_devices.specs.Causes.{HasCause};

use crate::links::Links;
use crate::stream::write_whole;
use ms_base::Tuple;
use ms_devices::{Failed, Outbox};
use std::io::Write;
use std::marker::Model;
use std::net::Net;
use std::sync::Wait;

/// What a worker sends by: a stream as its channel, and a UDP socket for each link. It tells nothing of its calls.
#[derive(Drop)]
pub struct RealOutbox<R, W> {
    channel: W,
    links: Links<R>,
    // How many calls have failed. They stand still at their type's end.
    channel_faults: u64,
    link_faults: u64,
}

impl<R, W> Model for RealOutbox<R, W> {
    ghost use Rattle.real_edges.specs.Edges.{OutboxState};

    ghost Value = { OutboxState W };

    ghost view = { λ s. record { channel = s.channel; channel_faults = s.channel_faults; link_faults = s.link_faults } };
}

impl<R, W> RealOutbox<R, W> {
    // No call was made on it yet.
    pub(crate) fn new(channel: W, links: Links<R>) -> RealOutbox<R, W>
        ensures { result ≡ record { channel = channel; channel_faults = 0; link_faults = 0 } }
    {
        RealOutbox {
            channel,
            links,
            channel_faults: 0,
            link_faults: 0,
        }
    }
}

impl<R: Wait + Drop, W: Drop> RealOutbox<R, W> {
    // Shuts all links, and tells the keeper that no more come.
    pub(crate) fn close(self) {
        let RealOutbox {
            channel: _,
            links,
            channel_faults: _,
            link_faults: _,
        } = self;
        links.close();
    }
}

impl<R: Wait + Net, W: Write> Outbox for RealOutbox<R, W> {
    ghost use Rattle.std.specs.Prelude.{None};

    ghost calls = { λ _. None };

    ghost channel_faults = { λ outbox. outbox.channel_faults };

    ghost link_faults = { λ outbox. outbox.link_faults };

    fn bind(&mut self, link: u32, ip: [u8; 4]) -> Result<u16, Failed>
        ensures cause { HasCause self.old.link_faults self.new.link_faults result }
        ensures other { self.new.channel_faults ≡ self.old.channel_faults }
        ensures channel { self.new.channel ≡ self.old.channel }
    {
        match self.links.bind(link, ip) {
            Ok(port) => Ok(port),
            Err(_) => {
                self.link_faults = self.link_faults.saturating_add(1);
                Err(Failed)
            }
        }
    }

    fn shut(&mut self, link: u32)
        ensures { self.new ≡ self.old }
    {
        self.links.shut(link);
    }

    fn channel(&mut self, frame: &[u8]) -> Result<(), Failed>
        ensures cause { HasCause self.old.channel_faults self.new.channel_faults result }
        ensures other { self.new.link_faults ≡ self.old.link_faults }

        // Where the stream tells its bytes, it got the frame, or a prefix of it with a fault.
        ensures ok { OnOk result (Appends (W.contents self.old.channel) (W.contents self.new.channel) frame.now) }
        ensures err { OnErr result ((k : ℕ) × Appends (W.contents self.old.channel) (W.contents self.new.channel) (take k frame.now)) }
    {
        match write_whole(&mut self.channel, frame) {
            Ok(()) => Ok(()),
            Err(_) => {
                self.channel_faults = self.channel_faults.saturating_add(1);
                Err(Failed)
            }
        }
    }

    fn datagram(&mut self, link: u32, to: Tuple, packet: &[u8]) -> Result<(), Failed>
        ensures cause { HasCause self.old.link_faults self.new.link_faults result }
        ensures other { self.new.channel_faults ≡ self.old.channel_faults }
        ensures channel { self.new.channel ≡ self.old.channel }
    {
        if self.links.datagram(link, to, packet) {
            Ok(())
        } else {
            self.link_faults = self.link_faults.saturating_add(1);
            Err(Failed)
        }
    }
}
