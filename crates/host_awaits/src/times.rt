ghost use Rattle.std.specs.Prelude.{◌≡◌, ◌+◌, IfOk, OnOk, if◌then◌else◌};
ghost use Rattle.host_awaits.specs.Awaits.{same_event};
ghost use Rattle.host_awaits.specs.Times.{time_of};
ghost use Rattle.ms_base.specs.declared.keys.Event.{Event};

use ms_base::{Event, NoMemory};

/// How often each event was noted for objects of a name.
#[derive(Clone, Copy, Debug)]
pub(crate) struct Times {
    pub(crate) running: u32,
    pub(crate) opened: u32,
    pub(crate) closed: u32,
    pub(crate) paused: u32,
    pub(crate) resumed: u32,
    pub(crate) tuple: u32,
    pub(crate) rtp: u32,
}

impl Times {
    /// No event was noted.
    pub(crate) fn new() -> Times
        ensures { (e : Event) → time_of result e ≡ 0 }
    {
        Times {
            running: 0,
            opened: 0,
            closed: 0,
            paused: 0,
            resumed: 0,
            tuple: 0,
            rtp: 0,
        }
    }

    /// How often an event was noted.
    pub(crate) fn get(&self, event: Event) -> u64
        ensures { result ≡ time_of self.now event }
    {
        let times = match event {
            Event::Running => self.running,
            Event::Opened => self.opened,
            Event::Closed => self.closed,
            Event::Paused => self.paused,
            Event::Resumed => self.resumed,
            Event::Tuple => self.tuple,
            Event::Rtp => self.rtp,
        };
        u64::from(times)
    }

    /// Counts an event once more.
    pub(crate) fn raise(&mut self, event: Event) -> Result<(), NoMemory>
        ensures { OnOk result ((e : Event) → time_of self.new e ≡ (if same_event event e then time_of self.old e + 1 else time_of self.old e)) }
    {
        match event {
            Event::Running => self.running = one_more(self.running)?,
            Event::Opened => self.opened = one_more(self.opened)?,
            Event::Closed => self.closed = one_more(self.closed)?,
            Event::Paused => self.paused = one_more(self.paused)?,
            Event::Resumed => self.resumed = one_more(self.resumed)?,
            Event::Tuple => self.tuple = one_more(self.tuple)?,
            Event::Rtp => self.rtp = one_more(self.rtp)?,
        }
        Ok(())
    }
}

// One more than a number of notes. A journal within its limit has fewer than a `u32` counts.
fn one_more(times: u32) -> Result<u32, NoMemory>
    ensures { IfOk result (λ more. more ≡ times + 1) }
{
    times.checked_add(1).ok_or(NoMemory)
}
