use crate::{Flags, Told, consume_flags, local_tuple, read_told};
use channel_msgs::{Message, read_message};
use ms_base::{Id, Tuple};
use serde_json::Value;
use std::alloc::Global;
use std::test::Fail;

const HERE: [u8; 4] = [192, 0, 2, 1];

fn end(port: u16) -> Option<Tuple> {
    Some(Tuple { ip: HERE, port })
}

#[test]
fn new_transports_listen_where_the_reply_says(rt: HostRuntime) -> Result<(), Fail> {
    for (content, expected) in [
        (
            r#"{"tuple":{"localIp":"192.0.2.1","localPort":40000}}"#,
            end(40_000),
        ),
        (
            r#"{"more":null,"tuple":{"localIp":"192.0.2.1","localPort":1,"protocol":"udp"}}"#,
            end(1),
        ),
        (
            r#"{"tuple":null,"tuple":{"localPort":65535,"localIp":"192.0.2.1"}}"#,
            end(65_535),
        ),
        (r#"{"tuple":{"localIp":"192.0.2.1","localPort":0}}"#, None),
        (
            r#"{"tuple":{"localIp":"192.0.2.1","localPort":65536}}"#,
            None,
        ),
        (r#"{"tuple":{"localIp":"192.0.2.1","localPort":1.0}}"#, None),
        (r#"{"tuple":{"localIp":"192.0.2.1","localPort":1e2}}"#, None),
        (r#"{"tuple":{"localIp":"192.0.2.1","localPort":-1}}"#, None),
        (r#"{"tuple":{"localIp":"192.0.2.1","localPort":"1"}}"#, None),
        (
            r#"{"tuple":{"localIp":"192.0.2.1","localPort":null}}"#,
            None,
        ),
        (r#"{"tuple":{"localIp":"192.0.2.1"}}"#, None),
        (r#"{"tuple":{"localPort":1}}"#, None),
        (r#"{"tuple":{"localIp":"192.0.2.01","localPort":1}}"#, None),
        (r#"{"tuple":{"localIp":"192.0.2","localPort":1}}"#, None),
        (r#"{"tuple":{"localIp":"::1","localPort":1}}"#, None),
        (r#"{"tuple":{"localIp":null,"localPort":1}}"#, None),
        (r#"{"tuple":{"remoteIp":"192.0.2.1","remotePort":1}}"#, None),
        (r#"{"tuple":["192.0.2.1",1]}"#, None),
        (r#"{"localIp":"192.0.2.1","localPort":1}"#, None),
        (r#"null"#, None),
    ] {
        let value = Value::from_str(rt.alloc(), content)?;
        assert!(rt; local_tuple(Some(&value)) == expected, "{content}");
    }
    assert!(rt; local_tuple(None).is_none());
    Ok(())
}

fn flags(paused: bool, producer_paused: bool) -> Option<Flags> {
    Some(Flags {
        paused,
        producer_paused,
    })
}

#[test]
fn new_consumers_stand_as_the_reply_says(rt: HostRuntime) -> Result<(), Fail> {
    for (content, expected) in [
        (
            r#"{"paused":true,"producerPaused":false}"#,
            flags(true, false),
        ),
        (
            r#"{"producerPaused":true,"more":0,"paused":false}"#,
            flags(false, true),
        ),
        (r#"{"paused":true}"#, None),
        (r#"{"producerPaused":true}"#, None),
        (r#"{"paused":null,"producerPaused":false}"#, None),
        (r#"{"paused":true,"producerPaused":0}"#, None),
        (r#"[true,false]"#, None),
    ] {
        let value = Value::from_str(rt.alloc(), content)?;
        assert!(rt; consume_flags(Some(&value)) == expected, "{content}");
    }
    assert!(rt; consume_flags(None).is_none());
    Ok(())
}

const ID: Id = Id([0, 0, 0, 0, 0, 0, 0x40, 0, 0x80, 0, 0, 0, 0, 0, 0, 0xab]);

fn learnt(port: u16) -> Told {
    Told::TupleLearnt(ID, Tuple { ip: HERE, port })
}

// What a payload tells that is a notice.
fn told(alloc: Global, payload: &str) -> Result<Told, Fail> {
    match read_message(alloc, payload.as_bytes())? {
        Message::Notice(notice) => Ok(read_told(&notice)),
        _ => Err("no notice".into()),
    }
}

#[test]
fn notices_tell_by_target_and_event(rt: HostRuntime) -> Result<(), Fail> {
    for (payload, expected) in [
        (r#"{"event":"running","targetId":"worker"}"#, Told::Running),
        (
            r#"{"data":null,"event":"running","targetId":"worker"}"#,
            Told::Running,
        ),
        (
            r#"{"event":"running","targetId":"00000000-0000-4000-8000-0000000000ab"}"#,
            Told::Other,
        ),
        (r#"{"event":"Running","targetId":"worker"}"#, Told::Other),
        (
            r#"{"event":"producerclose","targetId":"worker"}"#,
            Told::Other,
        ),
        (
            r#"{"event":"producerclose","targetId":"00000000-0000-4000-8000-0000000000ab"}"#,
            Told::ProducerClosed(ID),
        ),
        (
            r#"{"event":"producerpause","targetId":"00000000-0000-4000-8000-0000000000AB"}"#,
            Told::ProducerPaused(ID),
        ),
        (
            r#"{"data":7,"event":"producerresume","targetId":"00000000-0000-4000-8000-0000000000aB"}"#,
            Told::ProducerResumed(ID),
        ),
        (
            r#"{"event":"producerclose","targetId":"000000000000400080000000000000ab"}"#,
            Told::Other,
        ),
        (
            r#"{"event":"score","targetId":"00000000-0000-4000-8000-0000000000ab"}"#,
            Told::Other,
        ),
    ] {
        assert!(rt; told(rt.alloc(), payload)? == expected, "{payload}");
    }
    Ok(())
}

#[test]
fn transports_learn_what_can_be_read(rt: HostRuntime) -> Result<(), Fail> {
    for (payload, expected) in [
        (
            r#"{"data":{"tuple":{"remoteIp":"192.0.2.1","remotePort":0}},"event":"tuple","targetId":"00000000-0000-4000-8000-0000000000ab"}"#,
            learnt(0),
        ),
        (
            r#"{"data":{"tuple":{"remoteIp":"192.0.2.1","remotePort":65535}},"event":"tuple","targetId":"00000000-0000-4000-8000-0000000000AB"}"#,
            learnt(65_535),
        ),
        (
            r#"{"data":{"tuple":{"remoteIp":"192.0.2.1","remotePort":65536}},"event":"tuple","targetId":"00000000-0000-4000-8000-0000000000ab"}"#,
            Told::Other,
        ),
        (
            r#"{"data":{"tuple":{"remoteIp":"192.0.2.1","remotePort":-0}},"event":"tuple","targetId":"00000000-0000-4000-8000-0000000000ab"}"#,
            Told::Other,
        ),
        (
            r#"{"data":{"tuple":{"localIp":"192.0.2.1","localPort":1}},"event":"tuple","targetId":"00000000-0000-4000-8000-0000000000ab"}"#,
            Told::Other,
        ),
        (
            r#"{"event":"tuple","targetId":"00000000-0000-4000-8000-0000000000ab"}"#,
            Told::Other,
        ),
        (
            r#"{"data":{"tuple":{"remoteIp":"192.0.2.1","remotePort":1}},"event":"tuple","targetId":"worker"}"#,
            Told::Other,
        ),
    ] {
        assert!(rt; told(rt.alloc(), payload)? == expected, "{payload}");
    }
    Ok(())
}
