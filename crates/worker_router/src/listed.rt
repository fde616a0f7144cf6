//! A Consumer in the list of its Producer.

ghost use Rattle.std.specs.Prelude.{◌≡◌};

use ms_base::Id;
use std::marker::Model;

/// Where a Consumer and its transport stand among those of the Router, as far as is known, and what a caller has noted at
/// the Consumer.
#[derive(Clone, Copy, Debug, PartialEq, Eq)]
pub(crate) struct Stands {
    pub(crate) consumer: usize,
    pub(crate) transport: usize,
    pub(crate) noted: usize,
}

/// A Consumer with its transport. Contracts see the two ids alone: where the objects stand is a guess, which is put right
/// when it has failed.
#[derive(Debug, Drop)]
pub(crate) struct Listed {
    consumer: Id,
    transport: Id,
    stands: Stands,
}

impl Model for Listed {
    ghost use Rattle.ms_base.specs.declared.id.Id.{Id as Name};

    ghost Value = { Name × Name };

    ghost view = { λ l. (l.consumer, l.transport) };
}

impl Listed {
    pub(crate) fn new(consumer: Id, transport: Id) -> Listed
        ensures { result ≡ (consumer, transport) }
    {
        Listed {
            consumer,
            transport,
            stands: Stands {
                consumer: 0,
                transport: 0,
                noted: 0,
            },
        }
    }

    pub(crate) fn consumer(&self) -> Id
        ensures { result ≡ self.now.0 }
    {
        self.consumer
    }

    pub(crate) fn transport(&self) -> Id
        ensures { result ≡ self.now.1 }
    {
        self.transport
    }

    /// Where both are thought to stand.
    pub(crate) fn stands(&self) -> Stands {
        self.stands
    }

    /// Notes where they stand.
    pub(crate) fn note(&mut self, stands: Stands)
        ensures { self.new ≡ self.old }
    {
        self.stands = stands;
    }

    /// Notes a number of the caller's.
    pub(crate) fn note_number(&mut self, number: usize)
        ensures { self.new ≡ self.old }
    {
        self.stands.noted = number;
    }
}
