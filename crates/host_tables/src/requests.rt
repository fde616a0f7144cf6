ghost use Rattle.std.specs.Prelude.{◌≡◌, ◌+◌, ◌-◌, ◌<◌, ◌≤◌, find, length, IfOk, OnOk, Ok, None};
ghost use Rattle.ms_base.specs.declared.id.Id.{Id};
ghost use Rattle.ms_base.specs.declared.keys.Serial.{Serial};
ghost use Rattle.request_build.specs.Counts.{one_if, times_in};
ghost use Rattle.channel_frames.specs.Frames.{max_payload};
ghost use Rattle.pending_calls.specs.Pending.{max_id};
ghost use Rattle.host_requests.specs.Requests.{is_on, is_start_of, last_on, others};
ghost use Rattle.host_model.specs.Changes.{request_issued};
ghost use Rattle.host_model.specs.State.{offers_as, settled_where, with_request};
ghost use Rattle.host_model.specs.Step.{start_request};
ghost use Rattle.host_tables.specs.Kept.{Expects, ExpectsNoMore, IsAlone, Moves, ShowsTheSame};

use crate::tables::Tables;
use host_model::Due;
use host_requests::Request;
use ms_base::{Bytes, CallKey, NoMemory, Serial, WorkerKey};
use pending_calls::{IssueFault, Owner};
use request_build::Keep;
use transcript::Note;

impl Tables {
    /// A request goes to a worker, with the next id of its channel, which has one left.
    pub fn issue(
        &mut self,
        channel: WorkerKey,
        owner: Owner,
        under: Serial,
        due: Due,
        payload: Bytes,
    ) -> Result<(), NoMemory>
        requires left { last_on self.old.requests channel < max_id }
        requires short { length payload ≤ max_payload }
        ensures ok { OnOk result (Moves (request_issued channel owner under due payload) self.old self.new) }
        ensures shown { ShowsTheSame self.old self.new }
    {
        self.expect(&due)?;
        match self.requests.issue(channel, owner, under, due) {
            Ok(_) => self.note(Note::Sent {
                worker: channel,
                payload,
            }),
            Err(IssueFault::NoMemory) => Err(NoMemory),
            Err(IssueFault::IdsSpent) => unreachable!(),
        }
    }

    // What a request is to make is being made from now on: the tables are those of the requests with it.
    fn expect(&mut self, due: &Due) -> Result<(), NoMemory>
        ensures ok { OnOk result (Expects due.now self.old self.new) }
        ensures shown { ShowsTheSame self.old self.new }
    {
        let Due::Opens { object, keeps } = due else {
            return Ok(());
        };
        self.kept.names.add(&object.name)?;
        self.expect_id(keeps)?;
        self.awaits.touch(&object.name)?;
        Ok(())
    }

    // A Producer of which this is to be kept is being made from now on, with its id.
    fn expect_id(&mut self, keeps: &Keep) -> Result<(), NoMemory>
        ensures ok { OnOk result ((router : Serial) (id : Id) → times_in self.new.kept.producer_ids router id ≡ times_in self.old.kept.producer_ids router id + one_if (offers_as router id keeps.now)) }
        ensures others { self.new ≡ record self.old { kept = record self.old.kept { producer_ids = self.new.kept.producer_ids } } }
    {
        match keeps {
            Keep::Producer(offer) => self.kept.producer_ids.add(offer.router, offer.id),
            _ => Ok(()),
        }
    }

    // What a request was to make isn't being made any more.
    pub(crate) fn expect_no_more(&mut self, due: &Due) -> Result<(), NoMemory>
        ensures ok { OnOk result (ExpectsNoMore due.now self.old self.new) }
        ensures shown { ShowsTheSame self.old self.new }
    {
        let Due::Opens { object, keeps } = due else {
            return Ok(());
        };
        self.kept.names.remove(&object.name);
        self.expect_no_id(keeps);
        self.awaits.touch(&object.name)?;
        Ok(())
    }

    // A Producer of which this was to be kept isn't being made any more.
    fn expect_no_id(&mut self, keeps: &Keep)
        ensures ok { (router : Serial) (id : Id) → times_in self.new.kept.producer_ids router id ≡ times_in self.old.kept.producer_ids router id - one_if (offers_as router id keeps.now) }
        ensures others { self.new ≡ record self.old { kept = record self.old.kept { producer_ids = self.new.kept.producer_ids } } }
    {
        match keeps {
            Keep::Producer(offer) => self.kept.producer_ids.remove(offer.router, offer.id),
            _ => {}
        }
    }

    /// A call waits for the start of the Worker that it makes.
    pub fn add_start(&mut self, call: CallKey, worker: Serial) -> Result<(), NoMemory>
        ensures ok { OnOk result (Moves (λ s. record s { requests = with_request (start_request call worker) s.requests }) self.old self.new) }
        ensures shown { ShowsTheSame self.old self.new }
    {
        self.requests.add_start(call, worker, Due::Nothing)
    }

    /// Takes out the request of an id on a channel, if it waits. More than one would all go, and the first be answered.
    pub fn take_request(
        &mut self,
        worker: WorkerKey,
        id: u32,
    ) -> Result<Option<Request<Due>>, NoMemory>
        ensures found { IfOk result (λ taken. taken ≡ find (is_on worker id) self.old.requests.waiting) }
        ensures none { result ≡ Ok None → self.new ≡ self.old }
        ensures left { OnOk result (self.new.requests ≡ record self.old.requests { waiting = others (is_on worker id) self.old.requests.waiting }) }
        ensures ok { OnOk result (IsAlone (is_on worker id) self.old.requests.waiting → Moves (λ s. record s { requests = settled_where (is_on worker id) s.requests }) self.old self.new) }
        ensures shown { ShowsTheSame self.old self.new }
    {
        let Some(request) = self.requests.settle(worker, id) else {
            return Ok(None);
        };
        self.expect_no_more(&request.due)?;
        Ok(Some(request))
    }

    /// Takes out what waits for the start of a Worker. More than one would all go, and the first be answered.
    pub fn take_start(&mut self, worker: Serial) -> Result<Option<Request<Due>>, NoMemory>
        ensures found { IfOk result (λ taken. taken ≡ find (is_start_of worker) self.old.requests.waiting) }
        ensures none { result ≡ Ok None → self.new ≡ self.old }
        ensures left { OnOk result (self.new.requests ≡ record self.old.requests { waiting = others (is_start_of worker) self.old.requests.waiting }) }
        ensures ok { OnOk result (IsAlone (is_start_of worker) self.old.requests.waiting → Moves (λ s. record s { requests = settled_where (is_start_of worker) s.requests }) self.old self.new) }
        ensures shown { ShowsTheSame self.old self.new }
    {
        let Some(request) = self.requests.settle_start(worker) else {
            return Ok(None);
        };
        self.expect_no_more(&request.due)?;
        Ok(Some(request))
    }
}
