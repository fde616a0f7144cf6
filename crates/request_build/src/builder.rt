//! What a call is answered from, with the tests that calls share.

ghost use Rattle.std.specs.Prelude.{◌≡◌, ◌≤◌, ◌++◌, length, true, false, Ok, Err, Some, IfOk, IfErr, option_and_then};
ghost use Rattle.std.specs.List.{list_any};
ghost use Rattle.std.specs.Option.{option_copied};
ghost use Rattle.ms_base.specs.declared.outcome.Outcome.TheVariants as outcome;
ghost use Rattle.object_tree.specs.Objects.{named, numbered};
ghost use Rattle.request_build.specs.Asks.{own_id};
ghost use Rattle.request_build.specs.Built.{object_named};
ghost use Rattle.request_build.specs.Columns.{are_same, four_names, is_one_of, is_taken, is_there};
ghost use Rattle.request_build.specs.Known.{above, kept_at, known, router_of};
ghost use Rattle.request_build.specs.Steps.{free, is_ending, is_shut, needed};
ghost use Rattle.request_build.specs.Rules.{or_astray, or_refused, refused_where};

use crate::built::{BuildFault, Draws, Offer};
use crate::ids::parent;
use crate::kept::Kept;
use ms_base::{Id, Kind, Name, NameFault, NoMemory, Outcome, Serial};
use object_tree::{Object, Tree};
use rtp_params::{Caps, Params};
use std::alloc::Global;
use std::marker::Model;

/// The objects, what is kept of the open ones, and what is drawn next.
#[derive(Drop)]
pub(crate) struct Builder<'k> {
    pub(crate) alloc: Global,
    pub(crate) tree: &'k Tree,
    pub(crate) kept: &'k Kept,
    pub(crate) next: Draws,
}

impl<'k> Model for Builder<'k> {
    ghost use Rattle.std.specs.Coded.{codes};
    ghost use Rattle.request_build.specs.contracts.names.Names as names;
    ghost use Rattle.request_build.specs.contracts.router_ids.RouterIds as router_ids;
    ghost use Rattle.request_build.specs.Known.{IsKnown, Source};

    ghost Value = { Source };

    ghost coded = { Prim.hlevel (codes, names.the_row.coded, router_ids.the_row.coded) };

    ghost view = { λ b. record { objects = b.tree.now; kept = b.kept.now; next = b.next } };

    ghost invariant = { λ b. IsKnown b.kept.now b.next };
}

/// Refuses with an outcome where something is wrong.
pub(crate) fn refuse_where(wrong: bool, outcome: Outcome) -> Result<(), BuildFault>
    ensures ok { IfOk result (λ _. refused_where outcome wrong ≡ Ok false) }
    ensures err { IfErr result (λ e. refused_where outcome wrong ≡ Err e) }
{
    if wrong {
        Err(BuildFault::Refused(outcome))
    } else {
        Ok(())
    }
}

// What an open object has, in a tree of a host.
fn or_astray<T>(found: Option<T>) -> Result<T, BuildFault>
    ensures { result ≡ or_astray found }
{
    match found {
        Some(found) => Ok(found),
        None => Err(BuildFault::Refused(Outcome::InvalidState)),
    }
}

/// Whether an object is of one of these kinds.
pub(crate) fn is_one_of(object: &Object, kinds: &[Kind]) -> bool
    ensures { result ≡ is_one_of kinds.now object.now }
{
    kinds.iter().any(|kind| object.kind == *kind)
}

impl<'k> Builder<'k> {
    /// Refuses a name that is taken.
    pub(crate) fn free(&self, name: &Name) -> Result<(), BuildFault>
        ensures ok { IfOk result (λ _. free (known self.now) name.now ≡ Ok false) }
        ensures err { IfErr result (λ e. free (known self.now) name.now ≡ Err e) }
    {
        refuse_where(self.is_taken(name), Outcome::NameTaken)
    }

    /// Whether an object has a name, or a pending call is to make one of it.
    pub(crate) fn is_taken(&self, name: &Name) -> bool
        ensures { result ≡ is_taken (known self.now) name.now }
    {
        self.tree.by_name(name).is_some() || self.kept.names.has(name)
    }

    /// Whether one of the names of the objects that pipe a Producer to another Router is taken.
    #[tactic(auto, unfolding(ms_base::specs::Name::is_name_byte))]
    pub(crate) fn is_one_taken(&self, name: &Name) -> Result<bool, NoMemory>
        requires { length name.now ≤ 62 }
        ensures { IfOk result (λ taken. taken ≡ list_any (is_taken (known self.now)) (four_names name.now)) }
    {
        let end = self.is_taken_with(name, "_a")?;
        let other_end = self.is_taken_with(name, "_b")?;
        let consumer = self.is_taken_with(name, "_c")?;
        let producer = self.is_taken_with(name, "_p")?;
        Ok(end || other_end || consumer || producer)
    }

    // Whether a name with an ending of two characters is taken.
    fn is_taken_with(&self, name: &Name, ending: &str) -> Result<bool, NoMemory>
        requires room { length name.now ≤ 62 }
        requires ending { is_ending ending.now ≡ true }
        ensures { IfOk result (λ taken. taken ≡ is_taken (known self.now) (name.now ++ ending.now)) }
    {
        let whole = name_with(self.alloc, name, ending)?;
        Ok(self.is_taken(&whole))
    }

    /// The object of a name that a call needs.
    pub(crate) fn named(&self, name: &Name) -> Result<&Object, BuildFault>
        ensures ok { IfOk result (λ o. or_refused outcome.NoName (named (known self.now).objects name.now) ≡ Ok o.now) }
        ensures err { IfErr result (λ e. or_refused outcome.NoName (named (known self.now).objects name.now) ≡ Err e) }
    {
        match self.tree.by_name(name) {
            Some(object) => Ok(object),
            None => Err(BuildFault::Refused(Outcome::NoName)),
        }
    }

    /// The object of a name that a call needs alone, where it is of one of these kinds and open.
    pub(crate) fn needed(&self, name: &Name, kinds: &[Kind]) -> Result<&Object, BuildFault>
        ensures ok { IfOk result (λ o. needed (known self.now) kinds.now name.now ≡ Ok o.now) }
        ensures err { IfErr result (λ e. needed (known self.now) kinds.now name.now ≡ Err e) }
    {
        let object = self.named(name)?;
        refuse_where(!is_one_of(object, kinds), Outcome::WrongKind)?;
        refuse_where(self.is_shut(object), Outcome::InvalidState)?;
        Ok(object)
    }

    /// Whether an object is closed, or the host was stopped.
    pub(crate) fn is_shut(&self, object: &Object) -> bool
        ensures { result ≡ is_shut (known self.now) object.now }
    {
        self.kept.stopped || object.closed.is_some()
    }

    /// The object that another stands on.
    pub(crate) fn above(&self, object: &Object) -> Result<&Object, BuildFault>
        ensures ok { IfOk result (λ o. or_astray (above (known self.now).objects object.now) ≡ Ok o.now) }
        ensures err { IfErr result (λ e. or_astray (above (known self.now).objects object.now) ≡ Err e) }
    {
        or_astray(self.parent(object))
    }

    fn parent(&self, object: &Object) -> Option<&Object>
        ensures { option_copied result ≡ above (known self.now).objects object.now }
    {
        parent(self.tree, object)
    }

    /// The Router of a Producer.
    pub(crate) fn router_of(&self, producer: &Object) -> Option<Serial>
        ensures { result ≡ router_of (known self.now).objects producer.now }
    {
        self.parent(producer)?.parent
    }

    /// Whether an object stands on one of this kind.
    pub(crate) fn is_on(&self, object: &Object, kind: Kind) -> bool
        ensures { result ≡ is_there kind (above (known self.now).objects object.now) }
    {
        match self.parent(object) {
            Some(above) => above.kind == kind,
            None => false,
        }
    }

    /// The object of a name, which is there.
    pub(crate) fn known(&self, name: &Name) -> Result<&Object, BuildFault>
        ensures ok { IfOk result (λ o. object_named (known self.now) name.now ≡ Ok o.now) }
        ensures err { IfErr result (λ e. object_named (known self.now) name.now ≡ Err e) }
    {
        or_astray(self.tree.by_name(name))
    }

    /// The object of a serial, which is there.
    pub(crate) fn at(&self, serial: Serial) -> Result<&Object, BuildFault>
        ensures ok { IfOk result (λ o. or_astray (numbered (known self.now).objects serial) ≡ Ok o.now) }
        ensures err { IfErr result (λ e. or_astray (numbered (known self.now).objects serial) ≡ Err e) }
    {
        or_astray(self.tree.get(serial))
    }

    /// The Producer that a Consumer consumes.
    pub(crate) fn source(&self, consumer: &Object) -> Result<&Object, BuildFault>
        ensures ok { IfOk result (λ o. or_astray (option_and_then (numbered (known self.now).objects) consumer.now.producer) ≡ Ok o.now) }
        ensures err { IfErr result (λ e. or_astray (option_and_then (numbered (known self.now).objects) consumer.now.producer) ≡ Err e) }
    {
        match consumer.producer {
            Some(serial) => self.at(serial),
            None => Err(BuildFault::Refused(Outcome::InvalidState)),
        }
    }

    /// The codecs that a Router can receive and send.
    pub(crate) fn caps(&self, router: &Object) -> Result<&Caps, BuildFault>
        ensures ok { IfOk result (λ caps. or_astray (kept_at (known self.now).routers router.now.serial) ≡ Ok caps.now) }
        ensures err { IfErr result (λ e. or_astray (kept_at (known self.now).routers router.now.serial) ≡ Err e) }
    {
        match self.kept.routers.get(router.serial) {
            Some(caps) => Ok(caps),
            None => Err(BuildFault::Refused(Outcome::InvalidState)),
        }
    }

    /// What a Producer offers.
    pub(crate) fn offer(&self, producer: Serial) -> Result<&Offer, BuildFault>
        ensures ok { IfOk result (λ offer. or_astray (kept_at (known self.now).producers producer) ≡ Ok offer.now) }
        ensures few { IfOk result (λ offer. length offer.now.params.encodings ≤ 8) }
        ensures err { IfErr result (λ e. or_astray (kept_at (known self.now).producers producer) ≡ Err e) }
    {
        match self.kept.producers.get(producer) {
            Some(offer) => Ok(offer),
            None => Err(BuildFault::Refused(Outcome::InvalidState)),
        }
    }

    /// What a Consumer receives.
    pub(crate) fn received(&self, consumer: Serial) -> Result<&Params, BuildFault>
        ensures ok { IfOk result (λ params. or_astray (kept_at (known self.now).consumers consumer) ≡ Ok params.now) }
        ensures few { IfOk result (λ params. length params.now.encodings ≤ 8) }
        ensures err { IfErr result (λ e. or_astray (kept_at (known self.now).consumers consumer) ≡ Err e) }
    {
        match self.kept.consumers.get(consumer) {
            Some(params) => Ok(params),
            None => Err(BuildFault::Refused(Outcome::InvalidState)),
        }
    }

    /// Whether an end of a pipe retransmits.
    pub(crate) fn retransmits(&self, transport: &Object) -> Result<bool, BuildFault>
        ensures { result ≡ or_astray (kept_at (known self.now).pipes transport.now.serial) }
    {
        or_astray(self.kept.pipes.get(transport.serial).copied())
    }

    /// The id of the next serial.
    pub(crate) fn own_id(&self) -> Id
        ensures { result ≡ own_id (known self.now) }
    {
        Id::of(self.next.seed, self.next.serial)
    }
}

/// Whether both are there and are one.
pub(crate) fn are_same(one: Option<Serial>, other: Option<Serial>) -> bool
    ensures { result ≡ are_same one other }
{
    match one {
        Some(one) => is_serial(one, other),
        None => false,
    }
}

fn is_serial(serial: Serial, found: Option<Serial>) -> bool
    ensures { result ≡ are_same (Some serial) found }
{
    match found {
        Some(found) => serial == found,
        None => false,
    }
}

// A name with an ending behind it.
fn name_with(alloc: Global, name: &Name, ending: &str) -> Result<Name, NoMemory>
    requires room { length name.now ≤ 62 }
    requires ending { is_ending ending.now ≡ true }
    ensures { IfOk result (λ whole. whole ≡ name.now ++ ending.now) }
{
    let mut bytes = Vec::from_slice(alloc, name.as_slice())?;
    bytes.extend_from_slice(ending.as_bytes())?;
    match Name::read(alloc, bytes.as_slice()) {
        Ok(whole) => Ok(whole),
        Err(NameFault::NoMemory) => Err(NoMemory),
        Err(NameFault::BadName) => unreachable!(),
    }
}
