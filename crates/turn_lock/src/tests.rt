ghost use Rattle.std.specs.Prelude.{◌≡◌, ◌+◌, ◌<◌, ◌≤◌, ◌++◌, [], ◌∷◌, All, IfOk};
ghost use Rattle.std.specs.Thread.{IsSync};
ghost use Rattle.turn_lock.specs.Passes.{parts, IsOf, IsIdle};

use crate::{Book, Pass, TurnLock};
use std::alloc::{AllocError, Global};
use std::process::Abort;
use std::rt::Clock;
use std::sync::Wait;
use std::test::Fail;
use std::thread;
use std::thread::Threads;
use std::time::Duration;

// How many lines each thread enters.
const LINES: u32 = 500;

/// Lines, each of a thread and a number.
#[derive(Drop)]
struct Log {
    seed: u64,
    lines: Vec<(u32, u32)>,
}

impl Book for Log {
    type Entry = (u32, u32);

    ghost journal = { λ l. l.lines.items };

    ghost start = { λ l. l.seed };

    fn entries(&self) -> u64 {
        self.lines.len() as u64
    }
}

impl Log {
    fn add(&mut self, rt: &impl Abort, line: (u32, u32))
        ensures lines { self.new.lines.items ≡ self.old.lines.items ++ line ∷ [] }
        ensures seed { self.new.seed ≡ self.old.seed }
    {
        self.lines.push(line).expect(rt, "memory");
    }
}

// Enters one line.
fn enter_line<R: Wait + Abort>(rt: &R, lock: &TurnLock<Log>, pass: &mut Pass<Log>, line: (u32, u32))
    requires { IsOf lock.now pass.old × IsIdle pass.old }
    ensures { IsOf lock.now pass.new × IsIdle pass.new × (parts pass.new ≡ parts pass.old) }
{
    let mut guard = lock.enter(rt, pass);
    guard.get_mut().add(rt, line);
    lock.leave(pass, guard);
}

// Enters the lines of one thread.
fn enter_lines<R: Wait + Abort>(
    rt: &R,
    lock: &TurnLock<Log>,
    mut pass: Pass<Log>,
    of: u32,
    count: u32,
) -> Pass<Log>
    requires { IsOf lock.now pass × IsIdle pass }
    ensures { IsOf lock.now result × IsIdle result × (parts result ≡ parts pass) }
{
    for number in 0..count {
        enter_line(rt, lock, &mut pass, (of, number));
    }
    pass
}

#[test]
fn both_passes_entries_are_found(rt: HostRuntime) -> Result<(), Fail> {
    let log = Log {
        seed: 7,
        lines: Vec::new(rt.alloc()),
    };
    let (lock, mut first) = TurnLock::new(rt.alloc(), log).expect(&rt, "memory");
    let mut second = lock.split(&mut first).expect(&rt, "memory");
    enter_line(&rt, &lock, &mut first, (1, 10));
    enter_line(&rt, &lock, &mut second, (2, 20));
    let guard = lock.enter(&rt, &mut first);
    assert!(&rt; guard.get().lines.len() == 2);
    lock.leave(&mut first, guard);
    lock.join(&mut first, second);
    let closed = lock.close(first);
    let Ok(log) = closed else {
        panic!(&rt; "memory")
    };
    assert_eq!(rt; log.lines.as_slice(), [(1, 10), (2, 20)].as_slice());
    assert_eq!(rt; log.seed, 7);
    Ok(())
}

// Two threads, each with a pass. The pass that comes back has the parts of both.
fn two<R: Threads + Wait + Abort + Sync>(
    rt: &R,
    lock: &TurnLock<Log>,
    first: Pass<Log>,
    second: Pass<Log>,
    of: u32,
) -> Pass<Log>
    requires passes { IsOf lock.now first × IsIdle first × IsOf lock.now second × IsIdle second }
    requires number { of < 1000 }
    ensures { IsOf lock.now result × IsIdle result × (parts result ≡ parts first + parts second) }
{
    let (mut first, second) = thread::join(
        rt,
        || -> Pass<Log>
            requires { IsSync R.row × IsOf lock.now first × IsIdle first }
            ensures { IsOf lock.entry.now result × IsIdle result × (parts result ≡ parts first) }
        { enter_lines(rt, lock, first, of, LINES) },
        || -> Pass<Log>
            requires { IsSync R.row × IsOf lock.now second × IsIdle second × (of < 1000) }
            ensures { IsOf lock.entry.now result × IsIdle result × (parts result ≡ parts second) }
        { enter_lines(rt, lock, second, of + 1, LINES) },
    );
    lock.join(&mut first, second);
    first
}

// Four threads.
fn four<R: Threads + Wait + Abort + Sync>(
    rt: &R,
    lock: &TurnLock<Log>,
    left: (Pass<Log>, Pass<Log>),
    right: (Pass<Log>, Pass<Log>),
) -> Pass<Log>
    requires left { IsOf lock.now left.0 × IsIdle left.0 × IsOf lock.now left.1 × IsIdle left.1 }
    requires right { IsOf lock.now right.0 × IsIdle right.0 × IsOf lock.now right.1 × IsIdle right.1 }
    ensures { IsOf lock.now result × IsIdle result × (parts result ≡ parts left.0 + parts left.1 + (parts right.0 + parts right.1)) }
{
    let (a, b) = left;
    let (c, d) = right;
    let (mut first, second) = thread::join(
        rt,
        || -> Pass<Log>
            requires { IsSync R.row × IsOf lock.now a × IsIdle a × IsOf lock.now b × IsIdle b }
            ensures { IsOf lock.entry.now result × IsIdle result × (parts result ≡ parts a + parts b) }
        { two(rt, lock, a, b, 0) },
        || -> Pass<Log>
            requires { IsSync R.row × IsOf lock.now c × IsIdle c × IsOf lock.now d × IsIdle d }
            ensures { IsOf lock.entry.now result × IsIdle result × (parts result ≡ parts c + parts d) }
        { two(rt, lock, c, d, 2) },
    );
    lock.join(&mut first, second);
    first
}

#[test]
fn each_line_once_and_each_threads_in_order(rt: HostRuntime) -> Result<(), Fail> {
    let log = Log {
        seed: 0,
        lines: Vec::new(rt.alloc()),
    };
    let (lock, mut a) = TurnLock::new(rt.alloc(), log).expect(&rt, "memory");
    let b = lock.split(&mut a).expect(&rt, "memory");
    let c = lock.split(&mut a).expect(&rt, "memory");
    let d = lock.split(&mut a).expect(&rt, "memory");
    let pass = four(&rt, &lock, (a, b), (c, d));
    let closed = lock.close(pass);
    let Ok(log) = closed else {
        panic!(&rt; "memory")
    };
    let mut next = [0u32; 4];
    for (of, number) in log.lines.iter().copied() {
        let counted = next.get_mut(of as usize).ok_or("a thread of its own")?;
        assert_eq!(rt; number, *counted);
        *counted = counted.wrapping_add(1);
    }
    assert_eq!(rt; next, [LINES; 4]);
    assert_eq!(rt; log.lines.len(), 2000);
    Ok(())
}

#[test]
fn a_further_lock_begins_with_the_closed_value(rt: HostRuntime) -> Result<(), Fail> {
    let mut log = Log {
        seed: 3,
        lines: Vec::new(rt.alloc()),
    };
    log.add(&rt, (5, 50));
    let (lock, mut pass) = TurnLock::new(rt.alloc(), log).expect(&rt, "memory");
    enter_line(&rt, &lock, &mut pass, (6, 60));
    let Ok(log) = lock.close(pass) else {
        panic!(&rt; "memory")
    };
    let (lock, mut pass) = TurnLock::new(rt.alloc(), log).expect(&rt, "memory");
    enter_line(&rt, &lock, &mut pass, (7, 70));
    let Ok(log) = lock.close(pass) else {
        panic!(&rt; "memory")
    };
    assert_eq!(rt;
        log.lines.as_slice(),
        [(5, 50), (6, 60), (7, 70)].as_slice()
    );
    Ok(())
}

// Has its turn for a while, and adds nothing.
fn hold_turn<R: Wait + Clock>(rt: &R, lock: &TurnLock<Log>, mut pass: Pass<Log>) -> Pass<Log>
    requires { IsOf lock.now pass × IsIdle pass }
    ensures { IsOf lock.now result × IsIdle result × (parts result ≡ parts pass) }
{
    let guard = lock.enter(rt, &mut pass);
    let _ = thread::sleep(rt, Duration::from_millis(300));
    lock.leave(&mut pass, guard);
    pass
}

// Comes while the other one most likely has its turn, and waits long enough to sleep.
fn come_later<R: Wait + Abort + Clock>(
    rt: &R,
    lock: &TurnLock<Log>,
    mut pass: Pass<Log>,
) -> Pass<Log>
    requires { IsOf lock.now pass × IsIdle pass }
    ensures { IsOf lock.now result × IsIdle result × (parts result ≡ parts pass) }
{
    let _ = thread::sleep(rt, Duration::from_millis(100));
    enter_line(rt, lock, &mut pass, (8, 80));
    pass
}

fn hold_and_come<R: Threads + Wait + Abort + Clock + Sync>(
    rt: &R,
    lock: &TurnLock<Log>,
    first: Pass<Log>,
    second: Pass<Log>,
) -> Pass<Log>
    requires { IsOf lock.now first × IsIdle first × IsOf lock.now second × IsIdle second }
    ensures { IsOf lock.now result × IsIdle result × (parts result ≡ parts first + parts second) }
{
    let (mut first, second) = thread::join(
        rt,
        || -> Pass<Log>
            requires { IsSync R.row × IsOf lock.now first × IsIdle first }
            ensures { IsOf lock.entry.now result × IsIdle result × (parts result ≡ parts first) }
        { hold_turn(rt, lock, first) },
        || -> Pass<Log>
            requires { IsSync R.row × IsOf lock.now second × IsIdle second }
            ensures { IsOf lock.entry.now result × IsIdle result × (parts result ≡ parts second) }
        { come_later(rt, lock, second) },
    );
    lock.join(&mut first, second);
    first
}

#[test]
fn one_that_sleeps_is_woken(rt: HostRuntime) -> Result<(), Fail> {
    let log = Log {
        seed: 0,
        lines: Vec::new(rt.alloc()),
    };
    let (lock, mut first) = TurnLock::new(rt.alloc(), log).expect(&rt, "memory");
    let second = lock.split(&mut first).expect(&rt, "memory");
    let pass = hold_and_come(&rt, &lock, first, second);
    let Ok(log) = lock.close(pass) else {
        panic!(&rt; "memory")
    };
    assert_eq!(rt; log.lines.as_slice(), [(8, 80)].as_slice());
    Ok(())
}

// More than there are bells, so that some share one.
const MANY: u32 = 300;

// So many passes, cut off this one.
fn many_passes<R: Abort>(
    rt: &R,
    alloc: Global,
    lock: &TurnLock<Log>,
    first: &mut Pass<Log>,
) -> Result<Vec<Pass<Log>>, AllocError>
    requires ready { IsOf lock.now first.old × IsIdle first.old }
    requires parts { 1000 ≤ parts first.old }
    ensures first { IfOk result (λ _. IsOf lock.now first.new × IsIdle first.new) }
    ensures passes { IfOk result (λ passes. All (λ p. IsOf lock.now p × IsIdle p) passes.items) }
{
    let mut passes = Vec::new(alloc);
    for _ in 0..MANY {
        let pass = lock.split(first).expect(rt, "memory");
        passes.push(pass)?;
    }
    Ok(passes)
}

// Each enters a line in a thread of its own, while the other one most likely has its turn.
fn all_come_later<R: Threads + Wait + Abort + Clock + Sync>(
    rt: &R,
    lock: &TurnLock<Log>,
    passes: Vec<Pass<Log>>,
)
    requires { All (λ p. IsOf lock.now p × IsIdle p) passes.items }
{
    thread::map_vec(rt, passes, &|pass| come_later(rt, lock, pass)).expect(rt, "memory");
}

fn hold_and_all_come<R: Threads + Wait + Abort + Clock + Sync>(
    rt: &R,
    lock: &TurnLock<Log>,
    first: Pass<Log>,
    passes: Vec<Pass<Log>>,
) -> Pass<Log>
    requires first { IsOf lock.now first × IsIdle first }
    requires passes { All (λ p. IsOf lock.now p × IsIdle p) passes.items }
    ensures { IsOf lock.now result × IsIdle result }
{
    let (first, ()) = thread::join(
        rt,
        || -> Pass<Log>
            requires { IsSync R.row × IsOf lock.now first × IsIdle first }
            ensures { IsOf lock.entry.now result × IsIdle result }
        { hold_turn(rt, lock, first) },
        ||
            requires { IsSync R.row × All (λ p. IsOf lock.now p × IsIdle p) passes.items }
        { all_come_later(rt, lock, passes) },
    );
    first
}

#[test]
fn more_sleep_than_there_are_bells(rt: HostRuntime) -> Result<(), Fail> {
    let log = Log {
        seed: 0,
        lines: Vec::new(rt.alloc()),
    };
    let (lock, mut first) = TurnLock::new(rt.alloc(), log).expect(&rt, "memory");
    let passes = many_passes(&rt, rt.alloc(), &lock, &mut first)?;
    let mut first = hold_and_all_come(&rt, &lock, first, passes);
    let guard = lock.enter(&rt, &mut first);
    assert_eq!(rt; guard.get().lines.len(), MANY as usize);
    lock.leave(&mut first, guard);
    Ok(())
}
