use journal_text::entry_size;
use ms_base::{Bytes, Entry, Text, WorkerKey};
use ms_devices::{MemInbox, MemOutbox, MemSink, MemSource};
use run_top::{Status, media_top};
use std::test::Fail;

const RUNNING: &[u8] = b"journal 1 7
call 1 worker w 0
spawned 1 1 up
chunk 1 1 270000007b226576656e74223a2272756e6e696e67222c227461726765744964223a22776f726b6572227d
chunk 1 1 020000007b7d
chunk 1 1 00004000
";

const RUNNING_LINES: &[u8] = b"open 1 worker w 00000000-0000-4007-8000-000000000001
spawn 1 1
up 1 1
running w 1
settled 1 1 ok
unexpected 1 1
";

// An object without members is no message, and a length at the limit waits for its payload.
#[test]
fn notes_what_is_unexpected_and_waits_for_a_payload_at_the_limit(
    rt: HostRuntime,
) -> Result<(), Fail> {
    let alloc = rt.alloc();
    let mut words = Vec::new(alloc);
    words.push(Text::from_str(alloc, "replay")?)?;
    let mut source = MemSource::new(alloc, RUNNING, Vec::new(alloc))?;
    let mut sink = MemSink::new(alloc, Vec::new(alloc))?;
    let mut inbox = MemInbox::new(alloc, Vec::new(alloc), Vec::new(alloc))?;
    let mut outbox = MemOutbox::new(alloc, Vec::new(alloc), Vec::new(alloc))?;
    let status = media_top(
        alloc,
        words.as_slice(),
        &mut source,
        &mut sink,
        &mut inbox,
        &mut outbox,
    );
    assert_eq!(rt; status, Status::DONE);
    assert_eq!(rt; sink.told().unwrap_or(b"no more told"), RUNNING_LINES);
    Ok(())
}

// The head line, 2,047 lines of 131,083 bytes and one of 108,543 are 268,435,456 bytes, which is the limit; with
// one byte more in the last chunk they are over it.
#[test]
fn counts_the_lines_on_both_sides_of_the_limit(rt: HostRuntime) -> Result<(), Fail> {
    let alloc = rt.alloc();
    let worker = WorkerKey {
        slot: 9,
        generation: 1,
    };
    let table: [(usize, u64); 3] = [(65_536, 131_083), (54_266, 108_543), (54_267, 108_545)];
    for (count, size) in table {
        let bytes = Bytes::from_vec(vec![in alloc; 0u8; count]?);
        let entry = Entry::Chunk { worker, bytes };
        assert_eq!(rt; entry_size(&entry), size);
    }
    Ok(())
}
