ghost use Rattle.std.specs.Prelude.{◌≡◌, ℕ, List, [], ◌∷◌, MatchOption, Option, map};
ghost use Rattle.std.specs.List.{AllZip};
ghost use Rattle.ms_devices.specs.declared.events.MemEvent.{MemEvent};
ghost use Rattle.worker_play.specs.Reading.{Gives, GivesItems, IsAnswer, IsChannelEvent, IsDatagramEvent, IsEvent, IsEventLine, IsPortsLine, ArePorts, words};

use crate::fault::WordFault;
use crate::words::{is_word, pieces, read_hex, read_number};
use ms_base::Tuple;
use ms_devices::MemEvent;
use std::alloc::Global;

/// The answers to `bind` of the first line.
pub fn read_ports_line(alloc: Global, line: &[u8]) -> Result<Vec<Option<u16>>, WordFault>
    ensures { GivesItems (IsPortsLine line.now) result }
{
    let words = pieces(alloc, line, b' ')?;
    read_ports(alloc, words.as_slice())
}

// `ports P P - P`
fn read_ports(alloc: Global, words: &[&[u8]]) -> Result<Vec<Option<u16>>, WordFault>
    ensures { GivesItems (ArePorts (map (λ word. word.now) words.now)) result }
{
    let Some((kind, ports)) = words.split_first() else {
        return Err(WordFault::Bad);
    };
    if is_word(kind, b"ports") {
        read_answers(alloc, ports)
    } else {
        Err(WordFault::Bad)
    }
}

// An answer for each word.
fn read_answers(alloc: Global, words: &[&[u8]]) -> Result<Vec<Option<u16>>, WordFault>
    ensures { GivesItems (AllZip IsAnswer (map (λ word. word.now) words.now)) result }
{
    let mut answers = Vec::new(alloc);
    for word in words {
        let Some(answer) = read_answer(word) else {
            return Err(WordFault::Bad);
        };
        answers.push(answer)?;
    }
    Ok(answers)
}

// A port, or `-`.
fn read_answer(word: &[u8]) -> Option<Option<u16>>
    ensures { MatchOption result ((answer : Option ℕ) → IsAnswer word.now answer → ⊥) (IsAnswer word.now) }
{
    if is_word(word, b"-") {
        return Some(None);
    }
    match read_number(word, 65_535) {
        Some(port) => Some(Some(port as u16)),
        None => None,
    }
}

/// The event of a line.
pub fn read_event_line(alloc: Global, line: &[u8]) -> Result<MemEvent, WordFault>
    ensures { Gives (IsEventLine line.now) result }
{
    let words = pieces(alloc, line, b' ')?;
    read_event(alloc, words.as_slice())
}

// `channel HEX` or `datagram LINK IP PORT HEX`
fn read_event(alloc: Global, words: &[&[u8]]) -> Result<MemEvent, WordFault>
    ensures { Gives (IsEvent (map (λ word. word.now) words.now)) result }
{
    let Some((kind, rest)) = words.split_first() else {
        return Err(WordFault::Bad);
    };
    if is_word(kind, b"channel") {
        read_channel(alloc, rest)
    } else if is_word(kind, b"datagram") {
        read_datagram(alloc, rest)
    } else {
        Err(WordFault::Bad)
    }
}

// `HEX`
fn read_channel(alloc: Global, words: &[&[u8]]) -> Result<MemEvent, WordFault>
    ensures { Gives (IsChannelEvent (map (λ word. word.now) words.now)) result }
{
    match words {
        [hex] => Ok(MemEvent::Channel(read_hex(alloc, hex)?)),
        _ => Err(WordFault::Bad),
    }
}

// `LINK IP PORT HEX`
fn read_datagram(alloc: Global, words: &[&[u8]]) -> Result<MemEvent, WordFault>
    ensures { Gives (IsDatagramEvent (map (λ word. word.now) words.now)) result }
{
    match words {
        [link, ip, port, hex] => read_four(alloc, link, ip, port, hex),
        _ => Err(WordFault::Bad),
    }
}

// The four words of a datagram.
fn read_four(
    alloc: Global,
    link: &[u8],
    ip: &[u8],
    port: &[u8],
    hex: &[u8],
) -> Result<MemEvent, WordFault>
    ensures { Gives (IsDatagramEvent (link.now ∷ ip.now ∷ port.now ∷ hex.now ∷ [])) result }
{
    let Some(link) = read_number(link, 4_294_967_295) else {
        return Err(WordFault::Bad);
    };
    let Some(ip) = Tuple::read_ip(ip) else {
        return Err(WordFault::Bad);
    };
    let Some(port) = read_number(port, 65_535) else {
        return Err(WordFault::Bad);
    };
    let packet = read_hex(alloc, hex)?;
    Ok(MemEvent::Datagram {
        link: link as u32,
        from: Tuple {
            ip,
            port: port as u16,
        },
        packet,
    })
}
