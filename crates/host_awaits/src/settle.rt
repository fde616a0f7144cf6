ghost use Rattle.std.specs.Prelude.{◌≡◌, ℕ, List, true, map, OnOk, OnErr, IfOk};
ghost use Rattle.std.specs.List.{AllByRecursion};
ghost use Rattle.ms_base.specs.declared.keys.Event.{Event};
ghost use Rattle.host_awaits.specs.Awaits.{outcome_of, settled_by, waiting_by};
ghost use Rattle.host_awaits.specs.Keeping.{AreBelow, AreRising, IsKnown, rests};
ghost use Rattle.host_awaits.specs.Names.{noted, resting};
ghost use Rattle.host_awaits.specs.Settling.{AreReady, HaveNoneAtRest, Looked, awaits_of};

use crate::entered::Await;
use crate::names::Names;
use crate::standing::Standing;
use ms_base::{CallKey, NoMemory, Outcome};
use std::alloc::Global;
use std::collections::BTreeMap;

/// Looks at the awaits of these numbers, which stand in order. Those that settle are taken out, with what each comes
/// to; the others are at rest. These are all that settle where those at rest have no outcome.
pub(crate) fn look_at_each<S: Standing>(
    alloc: Global,
    numbers: &[u64],
    standing: &S,
    names: &mut Names,
    waiting: &mut BTreeMap<u64, Await>,
) -> Result<Vec<(CallKey, Outcome)>, NoMemory>
    requires { AreReady names.old waiting.old.entries numbers.now }
    ensures noted { (name : List ℕ) (e : Event) → noted names.new name e ≡ noted names.old name e }
    ensures rising { AreRising waiting.new.entries }
    ensures below { (next : ℕ) → AreBelow next waiting.old.entries names.old → AreBelow next waiting.new.entries names.new }
    ensures settled { IfOk result (λ list. HaveNoneAtRest (noted names.old) (S.hopeless standing.now) names.old waiting.old.entries → list.items ≡ settled_by (noted names.old) (S.hopeless standing.now) (awaits_of waiting.old.entries)) }
    ensures waiting { OnOk result (HaveNoneAtRest (noted names.old) (S.hopeless standing.now) names.old waiting.old.entries → awaits_of waiting.new.entries ≡ waiting_by (noted names.old) (S.hopeless standing.now) (awaits_of waiting.old.entries)) }
    ensures at_rest { OnOk result (AllByRecursion (λ e. rests names.new e ≡ true) waiting.new.entries) }
    ensures err { OnErr result (AllByRecursion (IsKnown names.new numbers.now) waiting.new.entries) }
{
    let mut settled = Vec::new(alloc);
    for number in numbers {
        look_at(*number, standing, names, waiting, &mut settled)?;
    }
    Ok(settled)
}

// Looks at the await of a number, if it waits.
fn look_at<S: Standing>(
    number: u64,
    standing: &S,
    names: &mut Names,
    waiting: &mut BTreeMap<u64, Await>,
    settled: &mut Vec<(CallKey, Outcome)>,
) -> Result<(), NoMemory>
    ensures noted { (name : List ℕ) (e : Event) → noted names.new name e ≡ noted names.old name e }
    ensures ok { OnOk result (Looked (S.hopeless standing.now) number names.old waiting.old.entries settled.old.items names.new waiting.new.entries settled.new.items) }
    ensures err { OnErr result ((name : List ℕ) → resting names.new name ≡ resting names.old name) }
    ensures kept { OnErr result (waiting.new.entries ≡ waiting.old.entries) }
{
    let Some(awaited) = waiting.get(&number) else {
        return Ok(());
    };
    match outcome(names, standing, awaited) {
        Some(outcome) => {
            settled.push((awaited.key, outcome))?;
            waiting.remove(&number);
        }
        None => names.rest(&awaited.name, number)?,
    }
    Ok(())
}

// What an await comes to, if it settles.
fn outcome<S: Standing>(names: &Names, standing: &S, awaited: &Await) -> Option<Outcome>
    ensures { result ≡ outcome_of (noted names.now) (S.hopeless standing.now) awaited.now }
{
    if awaited.count as u64 <= names.noted(&awaited.name, awaited.event) {
        Some(Outcome::Done)
    } else if standing.is_hopeless(&awaited.name) {
        Some(Outcome::Missed)
    } else {
        None
    }
}
