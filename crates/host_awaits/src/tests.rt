use crate::{Await, Awaits, Standing};
use ms_base::{CallKey, Event, Id, Kind, Name, Outcome, Reason, Serial, Verdict};
use std::alloc::Global;
use std::test::Fail;
use transcript::Note;

/// How all names stand.
#[derive(Drop)]
struct Stands {
    hopeless: bool,
}

impl Standing for Stands {
    ghost hopeless = { λ s _. s.hopeless };

    fn is_hopeless(&self, _name: &Name) -> bool {
        self.hopeless
    }
}

fn opened(alloc: Global, name: &[u8]) -> Result<Note, Fail> {
    Ok(Note::Open {
        serial: Serial(1),
        kind: Kind::Plain,
        name: Name::read(alloc, name)?,
        id: Id([0; 16]),
    })
}

fn closed(alloc: Global, name: &[u8]) -> Result<Note, Fail> {
    Ok(Note::Closed {
        serial: Serial(1),
        name: Name::read(alloc, name)?,
        reason: Reason::Close,
    })
}

fn enter(
    alloc: Global,
    awaits: &mut Awaits,
    place: u32,
    name: &[u8],
    event: Event,
    count: u32,
) -> Result<(), Fail> {
    let name = Name::read(alloc, name)?;
    let key = CallKey { lane: 1, place };
    awaits.add(Await {
        key,
        name,
        event,
        count,
    })?;
    Ok(())
}

// Four awaits, for one note of `b` and for three, two and one of `a`.
fn four(alloc: Global, awaits: &mut Awaits) -> Result<(), Fail> {
    enter(alloc, awaits, 1, b"b", Event::Closed, 1)?;
    enter(alloc, awaits, 2, b"a", Event::Opened, 3)?;
    enter(alloc, awaits, 3, b"a", Event::Opened, 2)?;
    enter(alloc, awaits, 4, b"a", Event::Paused, 1)?;
    Ok(())
}

// The notes `open a`, `closed b`, `open a`.
fn three_notes(alloc: Global, awaits: &mut Awaits) -> Result<(), Fail> {
    awaits.hear(&opened(alloc, b"a")?)?;
    awaits.hear(&closed(alloc, b"b")?)?;
    awaits.hear(&opened(alloc, b"a")?)?;
    Ok(())
}

fn settle(awaits: &mut Awaits, hopeless: bool) -> Result<Vec<(CallKey, Outcome)>, Fail> {
    Ok(awaits.settle(&Stands { hopeless })?)
}

fn settled(alloc: Global, hopeless: bool) -> Result<Vec<(CallKey, Outcome)>, Fail> {
    let mut awaits = Awaits::new(alloc);
    four(alloc, &mut awaits)?;
    three_notes(alloc, &mut awaits)?;
    settle(&mut awaits, hopeless)
}

fn seen(settled: &[(CallKey, Outcome)], at: usize) -> Option<(u32, Verdict)> {
    let (key, outcome) = settled.get(at)?;
    Some((key.place, outcome.verdict()))
}

#[test]
fn all_notes_of_a_name_count(rt: HostRuntime) -> Result<(), Fail> {
    let settled = settled(rt.alloc(), false)?;
    let settled = settled.as_slice();
    assert_eq!(rt;
        (seen(settled, 0), seen(settled, 1)),
        (Some((1, Verdict::Done)), Some((3, Verdict::Done)))
    );
    assert_eq!(rt; settled.len(), 2);
    Ok(())
}

#[test]
fn hopeless_awaits_are_missed_in_order(rt: HostRuntime) -> Result<(), Fail> {
    let settled = settled(rt.alloc(), true)?;
    let settled = settled.as_slice();
    assert_eq!(rt;
        (seen(settled, 0), seen(settled, 1)),
        (Some((1, Verdict::Done)), Some((2, Verdict::Missed)))
    );
    assert_eq!(rt;
        (seen(settled, 2), seen(settled, 3)),
        (Some((3, Verdict::Done)), Some((4, Verdict::Missed)))
    );
    Ok(())
}

#[test]
fn only_what_has_changed_is_looked_at(rt: HostRuntime) -> Result<(), Fail> {
    let mut awaits = Awaits::new(rt.alloc());
    four(rt.alloc(), &mut awaits)?;
    assert_eq!(rt; settle(&mut awaits, false)?.len(), 0);
    // All names are hopeless now, which nobody has said.
    assert_eq!(rt; settle(&mut awaits, true)?.len(), 0);
    awaits.touch(&Name::read(rt.alloc(), b"c")?)?;
    assert_eq!(rt; settle(&mut awaits, true)?.len(), 0);
    awaits.touch(&Name::read(rt.alloc(), b"a")?)?;
    assert_eq!(rt; settle(&mut awaits, true)?.len(), 3);
    Ok(())
}
