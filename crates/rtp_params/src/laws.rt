ghost use Rattle.std.specs.Prelude.{◌≡◌, ◌≤◌, List, Ok};
ghost use Rattle.serde_json.specs.Data.{Data};
ghost use Rattle.rtp_params.specs.declared.encoding.Encoding.{Encoding};
ghost use Rattle.rtp_params.specs.declared.mapping.Mapping.{Mapping};
ghost use Rattle.rtp_params.specs.declared.params.Params.{Params};
ghost use Rattle.rtp_params.specs.declared.params.Caps.{Caps};
ghost use Rattle.rtp_params.specs.Encodings.{encodings_of};
ghost use Rattle.rtp_params.specs.Mappings.{mapping_of};
ghost use Rattle.rtp_params.specs.Readable.{Each, IsEncoding, AreApart, IsParams, IsCaps};
ghost use Rattle.rtp_params.specs.Whole.{params_of, caps_of};
ghost use Rattle.rtp_params.specs.Writing.{params_value, caps_value};

/// Parameters that can be read are read back from the value that they are written as.
pub fn written_params_read_back()
    ensures { (params : Params) → IsParams params → params_of (params_value params) ≡ Ok params }
{}

/// Capabilities that can be read are read back from the value that they are written as.
pub fn written_caps_read_back()
    ensures { (caps : Caps) → IsCaps caps → caps_of (caps_value caps) ≡ Ok caps }
{}

/// What is read is in its range: SSRCs have 32 bits, and no two encodings have one as their own; what a payload
/// type is mapped to is one.
pub fn what_is_read_fits()
    ensures encodings { (d : Data) (es : List Encoding) → encodings_of d ≡ Ok es → Each IsEncoding es × AreApart es }
    ensures streams { (d : Data) (params : Params) → params_of d ≡ Ok params → Each IsEncoding params.encodings × AreApart params.encodings }
    ensures types { (d : Data) (mapping : Mapping) → mapping_of d ≡ Ok mapping → Each (λ pair. pair.1 ≤ 127) mapping.codecs }
{}
