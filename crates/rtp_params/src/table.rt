ghost use Rattle.std.specs.Prelude.{◌≡◌, IfOk, filter, map};
ghost use Rattle.rtp_params.specs.Table.{ext_of_row, ext_table, is_for, is_sent_for, sent_exts};

use crate::ext::Ext;
use ms_base::{Media, NoMemory, Text};
use std::alloc::Global;

// A row of the table of header extensions.
#[derive(Clone, Copy)]
struct Row {
    id: u8,
    uri: &'static str,
    media: Option<Media>,
    sends: bool,
}

const BOTH: Option<Media> = None;

const AUDIO: Option<Media> = Some(Media::Audio);

const VIDEO: Option<Media> = Some(Media::Video);

const TABLE: [Row; 9] = [
    Row {
        id: 1,
        uri: "urn:ietf:params:rtp-hdrext:sdes:mid",
        media: BOTH,
        sends: true,
    },
    Row {
        id: 2,
        uri: "urn:ietf:params:rtp-hdrext:sdes:rtp-stream-id",
        media: VIDEO,
        sends: false,
    },
    Row {
        id: 3,
        uri: "urn:ietf:params:rtp-hdrext:sdes:repaired-rtp-stream-id",
        media: VIDEO,
        sends: false,
    },
    Row {
        id: 4,
        uri: "http://www.webrtc.org/experiments/rtp-hdrext/abs-send-time",
        media: BOTH,
        sends: true,
    },
    Row {
        id: 5,
        uri: "http://www.ietf.org/id/draft-holmer-rmcat-transport-wide-cc-extensions-01",
        media: BOTH,
        sends: true,
    },
    Row {
        id: 7,
        uri: "urn:ietf:params:rtp-hdrext:framemarking",
        media: VIDEO,
        sends: true,
    },
    Row {
        id: 10,
        uri: "urn:ietf:params:rtp-hdrext:ssrc-audio-level",
        media: AUDIO,
        sends: true,
    },
    Row {
        id: 11,
        uri: "urn:3gpp:video-orientation",
        media: VIDEO,
        sends: true,
    },
    Row {
        id: 12,
        uri: "urn:ietf:params:rtp-hdrext:toffset",
        media: VIDEO,
        sends: true,
    },
];

impl Row {
    // The extension that the row is.
    fn ext(&self, alloc: Global) -> Result<Ext, NoMemory>
        ensures { IfOk result (λ ext. ext ≡ ext_of_row self.now) }
    {
        Ok(Ext {
            media: self.media,
            uri: Text::from_str(alloc, self.uri)?,
            id: self.id,
            sends: self.sends,
        })
    }

    // Whether it is sent for this media.
    fn is_sent_for(&self, media: Media) -> bool
        ensures { result ≡ is_sent_for media (ext_of_row self.now) }
    {
        self.sends && is_for(media, self.media)
    }
}

// Whether what is for the one media, or for both where there is none, is for the other.
fn is_for(media: Media, named: Option<Media>) -> bool
    ensures { result ≡ is_for media named }
{
    match named {
        None => true,
        Some(named) => named == media,
    }
}

// The extensions of those rows that are sent for this media.
fn sent_exts(alloc: Global, rows: &[Row], media: Media) -> Result<Vec<Ext>, NoMemory>
    ensures { IfOk result (λ exts. exts.items ≡ filter (is_sent_for media) (map ext_of_row rows.now)) }
{
    let mut exts = Vec::new(alloc);
    for row in rows {
        if row.is_sent_for(media) {
            exts.push(row.ext(alloc)?)?;
        }
    }
    Ok(exts)
}

// The extensions of these rows.
fn exts_of(alloc: Global, rows: &[Row]) -> Result<Vec<Ext>, NoMemory>
    ensures { IfOk result (λ exts. exts.items ≡ map ext_of_row rows.now) }
{
    let mut exts = Vec::with_capacity(alloc, rows.len())?;
    for row in rows {
        exts.push(row.ext(alloc)?)?;
    }
    Ok(exts)
}

/// The supported header extensions that are sent for this media, in the order of their table, which is that
/// of their ids.
#[tactic(auto, unfolding(crate::specs::Table::ext_table))]
pub fn table_exts(alloc: Global, media: Media) -> Result<Vec<Ext>, NoMemory>
    ensures { IfOk result (λ exts. exts.items ≡ sent_exts media) }
{
    sent_exts(alloc, &TABLE, media)
}

/// All supported header extensions, in the order of their table.
#[tactic(auto, unfolding(crate::specs::Table::ext_table))]
pub fn all_exts(alloc: Global) -> Result<Vec<Ext>, NoMemory>
    ensures { IfOk result (λ exts. exts.items ≡ ext_table) }
{
    exts_of(alloc, &TABLE)
}
