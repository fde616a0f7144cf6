ghost use Rattle.std.specs.Prelude.{◌≡◌, IfOk, find, map};
ghost use Rattle.std.specs.Option.{option_map};
ghost use Rattle.ortc_map.specs.Matching.{matches};
ghost use Rattle.ortc_map.specs.Supported.{codec_of_row, feedback_for, feedback_of_row, supported_codecs};

use crate::matching::has_format;
use ms_base::{Media, NoMemory, Text};
use rtp_params::{Codec, Feedback};
use std::alloc::Global;

// A row of the table of supported codecs. Its feedback is that of its media.
#[derive(Clone, Copy)]
pub(crate) struct Row {
    pub(crate) media: Media,
    pub(crate) name: &'static str,
    /// The payload type that is its own, if it has one.
    pub(crate) payload_type: Option<u8>,
    pub(crate) clock_rate: u32,
    pub(crate) channels: Option<u8>,
}

const TABLE: [Row; 5] = [
    Row {
        media: Media::Audio,
        name: "opus",
        payload_type: None,
        clock_rate: 48000,
        channels: Some(2),
    },
    Row {
        media: Media::Audio,
        name: "PCMU",
        payload_type: Some(0),
        clock_rate: 8000,
        channels: Some(1),
    },
    Row {
        media: Media::Audio,
        name: "PCMA",
        payload_type: Some(8),
        clock_rate: 8000,
        channels: Some(1),
    },
    Row {
        media: Media::Video,
        name: "VP8",
        payload_type: None,
        clock_rate: 90000,
        channels: None,
    },
    Row {
        media: Media::Video,
        name: "VP9",
        payload_type: None,
        clock_rate: 90000,
        channels: None,
    },
];

impl Row {
    // Whether a codec matches this one.
    fn is_of(&self, codec: &Codec) -> bool
        ensures { result ≡ matches codec.now (codec_of_row self.now) }
    {
        has_format(codec, self.media, self.name, self.clock_rate, self.channels)
    }
}

// The first of the rows that a codec matches.
fn first_row(rows: &[Row], codec: &Codec) -> Option<Row>
    ensures { option_map codec_of_row result ≡ find (matches codec.now) (map codec_of_row rows.now) }
{
    for row in rows {
        if row.is_of(codec) {
            return Some(*row);
        }
    }
    None
}

/// The first supported codec that a codec matches.
#[tactic(auto, unfolding(crate::specs::Supported::supported_codecs))]
pub(crate) fn supported(codec: &Codec) -> Option<Row>
    ensures { option_map codec_of_row result ≡ find (matches codec.now) supported_codecs }
{
    first_row(&TABLE, codec)
}

// A row of the tables of feedback: its type and its parameter.
#[derive(Clone, Copy)]
struct FeedbackRow {
    kind: &'static str,
    parameter: &'static str,
}

const AUDIO_FEEDBACK: [FeedbackRow; 1] = [FeedbackRow {
    kind: "transport-cc",
    parameter: "",
}];

const VIDEO_FEEDBACK: [FeedbackRow; 5] = [
    FeedbackRow {
        kind: "nack",
        parameter: "",
    },
    FeedbackRow {
        kind: "nack",
        parameter: "pli",
    },
    FeedbackRow {
        kind: "ccm",
        parameter: "fir",
    },
    FeedbackRow {
        kind: "goog-remb",
        parameter: "",
    },
    FeedbackRow {
        kind: "transport-cc",
        parameter: "",
    },
];

// The feedback of these rows.
fn feedback_of(alloc: Global, rows: &[FeedbackRow]) -> Result<Feedback, NoMemory>
    ensures { IfOk result (λ feedback. feedback ≡ map feedback_of_row rows.now) }
{
    let mut feedback = Vec::with_capacity(alloc, rows.len())?;
    for row in rows {
        let kind = Text::from_str(alloc, row.kind)?;
        let parameter = Text::from_str(alloc, row.parameter)?;
        feedback.push((kind, parameter))?;
    }
    Ok(Feedback::from_vec(feedback))
}

/// The feedback of the supported codecs of this media.
pub(crate) fn feedback_for(alloc: Global, media: Media) -> Result<Feedback, NoMemory>
    ensures { IfOk result (λ feedback. feedback ≡ feedback_for media) }
{
    match media {
        Media::Audio => feedback_of(alloc, &AUDIO_FEEDBACK),
        Media::Video => feedback_of(alloc, &VIDEO_FEEDBACK),
    }
}
