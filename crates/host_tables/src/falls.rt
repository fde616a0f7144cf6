ghost use Rattle.std.specs.Prelude.{◌≡◌, IfOk, IfSome, IsTrue, OnOk, is_some};
ghost use Rattle.object_tree.specs.Falls.{with_closed};
ghost use Rattle.object_tree.specs.Objects.{AreInOrder, numbered};
ghost use Rattle.host_notes.specs.Sent.{IsShort};
ghost use Rattle.host_model.specs.Falls.{all_closed, closed_note, objects_closed, request_closed, requests_closed};
ghost use Rattle.host_tables.specs.Kept.{AreThere, AreUnderThere, ExpectsNone, Hears, Moves, ShowsTheSame, noted_by};

use crate::tables::Tables;
use host_model::Due;
use host_requests::Request;
use ms_base::{NoMemory, Outcome, Reason, Serial};
use transcript::Note;

impl Tables {
    /// These objects close, each for its reason; nothing is kept of them any more, and the slots of the Workers among them are
    /// over.
    pub fn close_objects(
        &mut self,
        fallen: &[Serial],
        roots: &[Serial],
        reason: Reason,
    ) -> Result<(), NoMemory>
        ensures ok { OnOk result (Moves (objects_closed fallen.now roots.now reason) self.old self.new) }
        ensures tree { OnOk result (self.new.tree ≡ with_closed fallen.now roots.now reason self.old.tree) }
        ensures shown { ShowsTheSame self.old self.new }
    {
        self.tree.close_all(fallen, roots, reason);
        self.slots.end(fallen, reason);
        for serial in fallen {
            self.kept.forget(*serial);
            self.note_close(*serial)?;
        }
        Ok(())
    }

    // The object of a serial has closed.
    fn note_close(&mut self, serial: Serial) -> Result<(), NoMemory>
        ensures told { OnOk result (Hears (closed_note (numbered self.old.tree serial)) self.old self.new) }
        ensures in_order { AreInOrder self.old.tree }
        ensures shown { ShowsTheSame self.old self.new }
    {
        match self.close_note(serial)? {
            Some(note) => self.note(note),
            None => Ok(()),
        }
    }

    // What is noted of the close of the object of a serial, if there is one, and it is closed.
    fn close_note(&self, serial: Serial) -> Result<Option<Note>, NoMemory>
        ensures noted { IfOk result (λ note. noted_by note ≡ closed_note (numbered self.now.tree serial)) }
        ensures short { IfOk result (λ note. IfSome note (λ n. IsShort n)) }
        ensures in_order { AreInOrder self.now.tree }
    {
        let Some(object) = self.tree.get(serial) else {
            return Ok(None);
        };
        let Some(reason) = object.closed else {
            return Ok(None);
        };
        let name = object.name.copy(self.alloc)?;
        Ok(Some(Note::Closed {
            serial: object.serial,
            name,
            reason,
        }))
    }

    /// The requests under these objects, which are there, settle, and their calls as closed.
    pub fn close_requests(&mut self, fallen: &[Serial]) -> Result<(), NoMemory>
        requires { AreThere self.old.tree fallen.now }
        ensures ok { OnOk result (Moves (requests_closed fallen.now) self.old self.new) }
        ensures shown { ShowsTheSame self.old self.new }
    {
        let taken = self.requests.close_under(fallen)?;
        let requests = taken.as_slice();
        self.expect_none(requests)?;
        self.close_each_request(requests)
    }

    // What these requests were to make isn't being made any more.
    fn expect_none(&mut self, requests: &[Request<Due>]) -> Result<(), NoMemory>
        ensures ok { OnOk result (ExpectsNone requests.now self.old self.new) }
        ensures shown { ShowsTheSame self.old self.new }
    {
        for request in requests {
            self.expect_no_more(&request.due)?;
        }
        Ok(())
    }

    // The objects that these requests were issued under, which are there, have closed.
    fn close_each_request(&mut self, requests: &[Request<Due>]) -> Result<(), NoMemory>
        requires { AreUnderThere self.old.tree requests.now }
        ensures ok { OnOk result (Moves (all_closed requests.now) self.old self.new) }
        ensures shown { ShowsTheSame self.old self.new }
    {
        for request in requests {
            self.close_request(request)?;
        }
        Ok(())
    }

    // The object that a request was issued under, which is there, has closed: so the call settles.
    fn close_request(&mut self, request: &Request<Due>) -> Result<(), NoMemory>
        requires { IsTrue (is_some (numbered self.old.tree request.now.under)) }
        ensures ok { OnOk result (Moves (request_closed request.now) self.old self.new) }
        ensures tree { self.new.tree ≡ self.old.tree }
        ensures shown { ShowsTheSame self.old self.new }
    {
        let Some(object) = self.tree.get(request.under) else {
            return Ok(());
        };
        let by = object.name.copy(self.alloc)?;
        self.settle_owner(request.owner, Outcome::Closed { by }, &request.due)
    }
}
