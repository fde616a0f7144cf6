ghost use Rattle.std.specs.Prelude.{◌≡◌, None, true, false, IsSomeAnd, IsTrue};
ghost use Rattle.object_tree.specs.Objects.{is_open, is_producer, numbered, open_with_id};

use crate::{Among, Mark, Object, Tree};
use ms_base::{Id, Kind, Name, NoMemory, Reason, Serial};
use std::alloc::Global;
use std::test::Fail;

/// An open object, with an id of its own.
fn object(
    alloc: Global,
    serial: u8,
    name: &[u8],
    kind: Kind,
    parent: u32,
    worker: u32,
) -> Result<Object, Fail> {
    Ok(Object {
        serial: Serial(serial as u32),
        name: Name::read(alloc, name)?,
        id: Id([serial; 16]),
        kind,
        parent: (parent > 0).then_some(Serial(parent)),
        worker: Serial(worker),
        producer: None,
        closed: None,
        paused: false,
        producer_paused: false,
        running: false,
        far: None,
    })
}

/// Whether no open object of this one's worker and kind has its id, where that tells it apart.
fn is_apart(tree: &Tree, object: &Object) -> bool
    ensures { result ≡ true → is_producer object.now.kind ≡ false → open_with_id tree.now object.now.worker object.now.kind object.now.id ≡ None }
{
    if object.kind == Kind::Producer {
        return true;
    }
    tree.by_id(object.worker, object.kind, object.id).is_none()
}

/// Adds an object, if it may be added.
fn add(tree: &mut Tree, object: Object) -> Result<bool, NoMemory> {
    if tree.get(object.serial).is_some() || !is_apart(tree, &object) {
        return Ok(false);
    }
    tree.add(object)?;
    Ok(true)
}

/// Whether the object of a serial is open.
fn is_open(tree: &Tree, serial: Serial) -> bool
    ensures { result ≡ true → IsSomeAnd (numbered tree.now serial) (λ o. IsTrue (is_open o)) }
{
    match tree.get(serial) {
        Some(object) => object.closed.is_none(),
        None => false,
    }
}

/// Marks an object, if it is open.
fn mark(tree: &mut Tree, serial: u32, mark: Mark) -> bool {
    let serial = Serial(serial);
    if is_open(tree, serial) {
        tree.mark(serial, mark);
        true
    } else {
        false
    }
}

/// Two workers with a Router each, and what a Producer on the first has made of a pipe to the second. They are added in
/// another order than their serials.
fn piped(alloc: Global) -> Result<(Tree, bool), Fail> {
    let mut tree = Tree::new(alloc);
    let objects = [
        (2, b"w2".as_slice(), Kind::Worker, 0, 2),
        (1, b"w1".as_slice(), Kind::Worker, 0, 1),
        (5, b"d".as_slice(), Kind::Direct, 3, 1),
        (3, b"r1".as_slice(), Kind::Router, 1, 1),
        (4, b"r2".as_slice(), Kind::Router, 2, 2),
        (6, b"p".as_slice(), Kind::Producer, 5, 1),
        (8, b"k_b".as_slice(), Kind::Pipe, 4, 2),
        (7, b"k_a".as_slice(), Kind::Pipe, 3, 1),
        (10, b"k_p".as_slice(), Kind::Producer, 8, 2),
        (9, b"k_c".as_slice(), Kind::Consumer, 7, 1),
        (11, b"q".as_slice(), Kind::Router, 2, 2),
    ];
    let mut added = true;
    for (serial, name, kind, parent, worker) in objects {
        let object = object(alloc, serial, name, kind, parent, worker)?;
        added = added && add(&mut tree, object)?;
    }
    Ok((tree, added))
}

/// Links the ends of the pipe.
fn link(tree: &mut Tree) -> bool {
    mark(tree, 7, Mark::Far(Serial(8)))
        && mark(tree, 8, Mark::Far(Serial(7)))
        && mark(tree, 9, Mark::Far(Serial(10)))
        && mark(tree, 10, Mark::Far(Serial(9)))
}

/// Why the object of a serial has closed.
fn reason(tree: &Tree, serial: u32) -> Option<Reason> {
    tree.get(Serial(serial))?.closed
}

/// The numbers of serials.
fn numbers(alloc: Global, serials: &[Serial]) -> Result<Vec<u32>, Fail> {
    Ok(serials.iter().map(|serial| serial.0).collect(alloc)?)
}

/// Lets what falls with the roots close.
fn close(
    alloc: Global,
    tree: &mut Tree,
    roots: &[Serial],
    reason: Reason,
) -> Result<Vec<u32>, Fail> {
    let fallen = tree.fallen(roots)?;
    tree.close_all(fallen.as_slice(), roots, reason);
    numbers(alloc, fallen.as_slice())
}

/// Two workers, after the first has died.
fn after_death(alloc: Global) -> Result<(Tree, Vec<u32>), Fail> {
    let (mut tree, added) = piped(alloc)?;
    let linked = link(&mut tree);
    let mut fallen = close(alloc, &mut tree, &[Serial(1)], Reason::Died)?;
    if !(added && linked) {
        fallen.clear();
    }
    Ok((tree, fallen))
}

#[test]
fn both_ends_of_a_pipe_fall_with_a_worker(rt: HostRuntime) -> Result<(), Fail> {
    let (tree, fallen) = after_death(rt.alloc())?;
    assert_eq!(rt; fallen.as_slice(), [1, 3, 5, 6, 7, 8, 9, 10].as_slice());
    let own = (reason(&tree, 1), reason(&tree, 3), reason(&tree, 5));
    assert_eq!(rt;
        own,
        (
            Some(Reason::Died),
            Some(Reason::WorkerClose),
            Some(Reason::RouterClose)
        )
    );
    let near = (reason(&tree, 6), reason(&tree, 7), reason(&tree, 9));
    assert_eq!(rt;
        near,
        (
            Some(Reason::TransportClose),
            Some(Reason::RouterClose),
            Some(Reason::TransportClose)
        )
    );
    let far = (reason(&tree, 8), reason(&tree, 10));
    assert_eq!(rt;
        far,
        (Some(Reason::PipeClose), Some(Reason::TransportClose))
    );
    let others = (reason(&tree, 2), reason(&tree, 4), reason(&tree, 11));
    assert_eq!(rt; others, (None, None, None));
    Ok(())
}

/// The serial of the object that a name belongs to.
fn serial_of(tree: &Tree, name: &Name) -> Option<u32> {
    Some(tree.by_name(name)?.serial.0)
}

/// The serial of the open object of the first worker that has the id of a serial's.
fn by_id(tree: &Tree, serial: u8, kind: Kind) -> Option<u32> {
    if kind == Kind::Producer {
        return None;
    }
    Some(tree.by_id(Serial(1), kind, Id([serial; 16]))?.serial.0)
}

#[test]
fn a_name_belongs_to_the_greatest_serial_open_or_closed(rt: HostRuntime) -> Result<(), Fail> {
    let mut tree = Tree::new(rt.alloc());
    let name = Name::read(rt.alloc(), b"r")?;
    let later = object(rt.alloc(), 3, b"r", Kind::Router, 1, 1)?;
    let earlier = object(rt.alloc(), 2, b"r", Kind::Router, 1, 1)?;
    assert!(rt; serial_of(&tree, &name).is_none());
    assert_eq!(rt;
        (add(&mut tree, later)?, add(&mut tree, earlier)?),
        (true, true)
    );
    let fallen = close(rt.alloc(), &mut tree, &[Serial(3)], Reason::Close)?;
    assert_eq!(rt; fallen.as_slice(), [3].as_slice());
    assert_eq!(rt; serial_of(&tree, &name), Some(3));
    assert_eq!(rt;
        (by_id(&tree, 3, Kind::Router), by_id(&tree, 2, Kind::Router)),
        (None, Some(2))
    );
    Ok(())
}

/// What marks have set of an object.
fn marks(tree: &Tree, serial: u32) -> Option<(bool, bool, bool, Option<Serial>)> {
    let object = tree.get(Serial(serial))?;
    Some((
        object.running,
        object.paused,
        object.producer_paused,
        object.far,
    ))
}

#[test]
fn marks_change_one_field_each(rt: HostRuntime) -> Result<(), Fail> {
    let mut tree = Tree::new(rt.alloc());
    let consumer = object(rt.alloc(), 4, b"c", Kind::Consumer, 2, 1)?;
    assert!(rt; add(&mut tree, consumer)?);
    assert!(rt;
        mark(&mut tree, 4, Mark::Running) && mark(&mut tree, 4, Mark::ProducerPaused(true))
    );
    assert!(rt;
        mark(&mut tree, 4, Mark::Far(Serial(9))) && mark(&mut tree, 4, Mark::Far(Serial(7)))
    );
    assert_eq!(rt; marks(&tree, 4), Some((true, false, true, Some(Serial(7)))));
    assert!(rt; mark(&mut tree, 4, Mark::Paused(true)));
    assert_eq!(rt; marks(&tree, 4), Some((true, true, true, Some(Serial(7)))));
    Ok(())
}

/// What falls with an end of a pipe of which only the other names it.
fn with_one_end(alloc: Global, root: u32) -> Result<Vec<u32>, Fail> {
    let (mut tree, _added) = piped(alloc)?;
    let _linked = mark(&mut tree, 10, Mark::Far(Serial(9)));
    let fallen = tree.fallen(&[Serial(root)])?;
    numbers(alloc, fallen.as_slice())
}

#[test]
fn a_link_leads_in_either_direction(rt: HostRuntime) -> Result<(), Fail> {
    assert_eq!(rt; with_one_end(rt.alloc(), 9)?.as_slice(), [9, 10].as_slice());
    assert_eq!(rt;
        with_one_end(rt.alloc(), 10)?.as_slice(),
        [9, 10].as_slice()
    );
    Ok(())
}

#[test]
fn a_producer_leaves_its_consumers(rt: HostRuntime) -> Result<(), Fail> {
    assert_eq!(rt; with_one_end(rt.alloc(), 6)?.as_slice(), [6].as_slice());
    Ok(())
}

/// Whether each of two serials is among three, of which the second alone is.
fn found(serials: &[Serial]) -> (bool, bool) {
    let among = Among::new(serials);
    (among.has(Serial(4)), among.has(Serial(9)))
}

#[test]
fn a_serial_is_found_in_any_order(rt: HostRuntime) {
    assert_eq!(rt; found(&[Serial(2), Serial(5), Serial(9)]), (false, true));
    assert_eq!(rt; found(&[Serial(9), Serial(2), Serial(5)]), (false, true));
}
