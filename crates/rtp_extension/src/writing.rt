//! Writing into a buffer, place by place. Each of these functions gives the place behind what it wrote.

ghost use Rattle.std.specs.Prelude.{◌≡◌, ◌+◌, ◌-◌, ◌*◌, ◌%◌, ◌≤◌, ◌++◌, length, IfSome};
ghost use Rattle.std.specs.Option.{option_and_then};
ghost use Rattle.byteorder.specs.Endian.{big_bytes};
ghost use Rattle.rtp_packet.specs.Packet.{Fields, Fits, packet_of, header_extension, IsExtension};
ghost use Rattle.rtp_extension.specs.Elements.{IsElement, spelled, spelling};
ghost use Rattle.rtp_extension.specs.Reading.{elements_in};
ghost use Rattle.rtp_extension.specs.Ids.{kept_id};
ghost use Rattle.rtp_extension.specs.Rewriting.{usable, kept, missing, in_words, extension_with, with_ids};
ghost use Rattle.rtp_extension.specs.Viewing.{Wrote};

use crate::form::{Form, LAST_ONE_BYTE_ID};
use crate::id_map::IdMap;
use crate::id_set::IdSet;
use crate::reading::Elements;
use rtp_packet::View;

/// The bytes of an extension in front of its words: the profile, and the number of words.
const HEAD_LEN: usize = 4;

const ZEROS: [u8; 3] = [0; 3];

/// Writes a packet that was read, with the elements of its extension whose new ids the set has.
pub(crate) fn put_packet(map: &IdMap, only: &IdSet, view: &View<'_>, into: &mut [u8]) -> usize
    requires fits { Fits view.now }
    requires room { length (packet_of view.now) ≤ length into.old }
    ensures written { Wrote (packet_of (with_ids (kept_id map.now only.now) view.now)) into.old into.new 0 result }
    ensures no_longer { result ≤ length (packet_of view.now) }
{
    let at = put(view.header(), into, 0);
    let at = put_extension(map, only, view, into, at);
    put(view.body(), into, at)
}

fn put_extension(map: &IdMap, only: &IdSet, view: &View<'_>, into: &mut [u8], at: usize) -> usize
    requires whole { IfSome view.now.extension (λ e. IsExtension e.0 e.1) }
    requires room { at + length (header_extension view.now.extension) ≤ length into.old }
    ensures written { Wrote (header_extension (extension_with (kept_id map.now only.now) view.now.extension)) into.old into.new at result }
    ensures no_longer { result ≤ at + length (header_extension view.now.extension) }
{
    let Some((profile, words)) = view.extension() else {
        return at;
    };
    let Some(form) = Form::of(profile) else {
        return put(view.extension_bytes(), into, at);
    };
    let end = put_words(map, only, form, words, into, at + HEAD_LEN);
    let count = (end - at - HEAD_LEN) / 4;
    put_head(profile, count as u16, into, at);
    end
}

// Writes the front of an extension.
fn put_head(profile: u16, count: u16, into: &mut [u8], at: usize) -> usize
    requires room { at + 4 ≤ length into.old }
    ensures { Wrote (big_bytes 2 profile ++ big_bytes 2 count) into.old into.new at result }
{
    let at = put(&profile.to_be_bytes(), into, at);
    put(&count.to_be_bytes(), into, at)
}

// Writes the words of an extension whose elements have new ids that the set has.
fn put_words(
    map: &IdMap,
    only: &IdSet,
    form: Form,
    words: &[u8],
    into: &mut [u8],
    at: usize,
) -> usize
    requires whole { length words.now % 4 ≡ 0 }
    requires room { at + length words.now ≤ length into.old }
    ensures written { Wrote (in_words (spelling form (kept (kept_id map.now only.now) form (elements_in form words.now)))) into.old into.new at result }
    ensures no_longer { result ≤ at + length words.now }
{
    let end = put_kept(map, only, form, words, into, at);
    put(&ZEROS[..missing_bytes(end - at)], into, end)
}

// How many bytes are missing behind so many to whole words.
fn missing_bytes(len: usize) -> usize
    ensures number { result ≡ missing len }
    ensures few { result ≤ 3 }
{
    (4 - len % 4) % 4
}

// Writes those of the elements that have a new id which the set has and their form can spell.
fn put_kept(
    map: &IdMap,
    only: &IdSet,
    form: Form,
    words: &[u8],
    into: &mut [u8],
    at: usize,
) -> usize
    requires room { at + length words.now ≤ length into.old }
    ensures { Wrote (spelling form (kept (kept_id map.now only.now) form (elements_in form words.now))) into.old into.new at result }
{
    let mut end = at;
    for (id, data) in Elements::of(form, words) {
        if let Some(new) = usable_id(map, only, form, id) {
            end = put_element(form, new, data, into, end);
        }
    }
    end
}

// The new id of an element, if it has one that the set has and the form can spell.
fn usable_id(map: &IdMap, only: &IdSet, form: Form, id: u8) -> Option<u8>
    ensures found { result ≡ option_and_then (usable form) (kept_id map.now only.now id) }
    ensures least { IfSome result (λ new. 1 ≤ new) }
{
    let new = map.get(id)?;
    if !only.has(new) {
        return None;
    }
    match form {
        Form::OneByte if new > LAST_ONE_BYTE_ID => None,
        _ => Some(new),
    }
}

fn put_element(form: Form, id: u8, data: &[u8], into: &mut [u8], at: usize) -> usize
    requires element { IsElement form (id, «data».now) }
    requires room { at + length (spelled form (id, «data».now)) ≤ length into.old }
    ensures { Wrote (spelled form (id, «data».now)) into.old into.new at result }
{
    let at = match form {
        Form::OneByte => put(&[one_byte_head(id, data.len())], into, at),
        Form::TwoByte => put(&[id, data.len() as u8], into, at),
    };
    put(data, into, at)
}

// The byte in front of an element of the one-byte form.
fn one_byte_head(id: u8, len: usize) -> u8
    requires id { id ≤ 14 }
    requires some { 1 ≤ len }
    requires short { len ≤ 16 }
    ensures { result ≡ 16 * id + (len - 1) }
{
    (id << 4) | (len - 1) as u8
}

fn put(bytes: &[u8], into: &mut [u8], at: usize) -> usize
    requires room { at + length bytes.now ≤ length into.old }
    ensures { Wrote bytes.now into.old into.new at result }
{
    let end = at + bytes.len();
    into[at..end].copy_from_slice(bytes);
    end
}
