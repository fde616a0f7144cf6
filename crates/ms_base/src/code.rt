ghost use Rattle.std.specs.Prelude.{◌≡◌};
ghost use Rattle.ms_base.specs.Code.{code_word};

/// What is wrong with a line of a script or a journal, or with what a call is given.
#[derive(Clone, Copy, Debug, PartialEq, Eq)]
pub enum Code {
    /// The script is longer than it may be.
    Long,
    /// The line is not UTF-8.
    Utf8,
    /// The first line is not the head of its format.
    Head,
    /// The last line has no line feed.
    Cut,
    /// A step stands before the first lane.
    NoLane,
    /// No line of the format begins so.
    Op,
    /// The number of words is wrong.
    Words,
    /// A word is not a name.
    Name,
    /// A word is not a number, or is out of its range.
    Number,
    /// A word is none of those that may stand at its place.
    Event,
    /// The rest of the line is not a JSON text.
    Json,
    /// A word is not bytes in hexadecimal, or not as many as there may be.
    Hex,
    /// So many calls can't be made at once.
    Together,
    /// A script has more lanes or Workers than there may be.
    TooMany,
    /// A member is missing or has another form.
    Form,
    /// A Router is to be piped to itself.
    SameRouter,
    /// Two codecs have one payload type.
    DuplicateType,
    /// A Producer of the Router has the id.
    DuplicateId,
    /// An SSRC is missing, or two encodings have it.
    Ssrc,
    /// A retransmission codec names a payload type that no codec has.
    Apt,
    /// A list has more items than it may have, or none.
    Many,
    /// The media is neither audio nor video, or a codec's differs from it.
    Kind,
    /// There are as many slots already as there may be.
    Slots,
    /// The packet is longer than it may be.
    Packet,
    /// A codec is not supported.
    Codec,
    /// No codec can be consumed.
    Codecs,
    /// No dynamic payload type is left.
    Types,
    /// RTP and RTCP are not to share a port.
    Mux,
    /// A Producer of several encodings is consumed over pipes alone.
    Simulcast,
}

impl Code {
    /// The word that stands for the code in texts.
    pub fn word(self) -> &'static [u8]
        ensures { result.now ≡ code_word self }
    {
        match self {
            Code::Long => b"long",
            Code::Utf8 => b"utf8",
            Code::Head => b"head",
            Code::Cut => b"cut",
            Code::NoLane => b"nolane",
            Code::Op => b"op",
            Code::Words => b"words",
            Code::Name => b"name",
            Code::Number => b"number",
            Code::Event => b"event",
            Code::Json => b"json",
            Code::Hex => b"hex",
            Code::Together => b"together",
            Code::TooMany => b"toomany",
            Code::Form => b"form",
            Code::SameRouter => b"same_router",
            Code::DuplicateType => b"duplicate_type",
            Code::DuplicateId => b"duplicate_id",
            Code::Ssrc => b"ssrc",
            Code::Apt => b"apt",
            Code::Many => b"many",
            Code::Kind => b"kind",
            Code::Slots => b"slots",
            Code::Packet => b"packet",
            Code::Codec => b"codec",
            Code::Codecs => b"codecs",
            Code::Types => b"types",
            Code::Mux => b"mux",
            Code::Simulcast => b"simulcast",
        }
    }
}
