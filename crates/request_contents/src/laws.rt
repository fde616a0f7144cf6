//! Laws of the definitions, which the functions of this crate are stated by.

ghost use Rattle.std.specs.Prelude.{◌≡◌, ℕ, List, Bool, Option, Some, Ok, true, false};
ghost use Rattle.serde_json.specs.Data.{Data};
ghost use Rattle.serde_json.specs.Written.{has_float};
ghost use Rattle.ms_base.specs.declared.keys.Media.{Media};
ghost use Rattle.ms_base.specs.declared.tuple.Tuple.{Tuple};
ghost use Rattle.rtp_params.specs.declared.encoding.Encoding.{Encoding};
ghost use Rattle.rtp_params.specs.declared.mapping.Mapping.{Mapping};
ghost use Rattle.rtp_params.specs.declared.params.Params.{Params};
ghost use Rattle.worker_requests.specs.declared.asked.Asked.{Asked};
ghost use Rattle.worker_requests.specs.declared.content.PipeContent.{PipeContent};
ghost use Rattle.worker_requests.specs.declared.content.PlainContent.{PlainContent};
ghost use Rattle.worker_requests.specs.Contents.{connect_content, consume_content, is_direct, pipe_content, plain_content, produce_content};
ghost use Rattle.worker_requests.specs.Methods.{asked_of};
ghost use Rattle.request_contents.specs.Laws.{IsAddress, IsConsumed, IsEnd, IsProduced};
ghost use Rattle.request_contents.specs.Methods.{ids_of, method_of};
ghost use Rattle.request_contents.specs.Values.{connect_value, consume_value, direct_value, pipe_value, plain_value, produce_value};

/// The worker finds the method and the ids that the host asked for.
pub fn what_is_asked_is_read()
    ensures { (asked : Asked) (id : ℕ) (content : Option Data) → asked_of (record { id = id; method = method_of asked; ids = ids_of asked; content = content }) ≡ Ok asked }
{}

/// The worker reads of a content what the host wrote it of.
pub fn written_contents_read_back()
    ensures plain { (c : PlainContent) → IsAddress c.ip → plain_content (Some (plain_value c)) ≡ Some c }
    ensures pipe { (c : PipeContent) → IsAddress c.ip → pipe_content (Some (pipe_value c)) ≡ Some c }
    ensures direct { is_direct (Some direct_value) ≡ true }
    ensures connect { (to : Tuple) → IsEnd to → connect_content (Some (connect_value to)) ≡ Some to }
    ensures produce { (media : Media) (paused : Bool) (mapping : Mapping) (params : Params) → IsProduced mapping params → produce_content (Some (produce_value media paused mapping params)) ≡ Some (record { media = media; paused = paused; mapping = mapping; params = params }) }
    ensures consume { (media : Media) (paused simple : Bool) (consumable : List Encoding) (params : Params) → IsConsumed consumable params simple → consume_content (Some (consume_value media paused consumable params simple)) ≡ Some (record { media = media; paused = paused; consumable = consumable; params = params; simple = simple }) }
{
    rtp_params::written_params_read_back();
}

/// No number of a content is held as a float: so what is written of it is told by its value.
pub fn written_contents_have_whole_numbers()
    ensures plain { (c : PlainContent) → has_float (plain_value c) ≡ false }
    ensures pipe { (c : PipeContent) → has_float (pipe_value c) ≡ false }
    ensures direct { has_float direct_value ≡ false }
    ensures connect { (to : Tuple) → has_float (connect_value to) ≡ false }
    ensures produce { (media : Media) (paused : Bool) (mapping : Mapping) (params : Params) → has_float (produce_value media paused mapping params) ≡ false }
    ensures consume { (media : Media) (paused simple : Bool) (consumable : List Encoding) (params : Params) → has_float (consume_value media paused consumable params simple) ≡ false }
{}
