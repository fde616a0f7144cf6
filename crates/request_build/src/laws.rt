//! Laws of the requests that are built. The functions do nothing; their contracts are the laws.

ghost use Rattle.std.specs.Prelude.{◌≡◌, Ok, IfSome};
ghost use Rattle.ms_base.specs.declared.op.Op.{Op};
ghost use Rattle.ms_base.specs.declared.part.Part.{Part};
ghost use Rattle.request_build.specs.Asks.{Ask, Request};
ghost use Rattle.request_build.specs.Built.{built, built_part};
ghost use Rattle.request_build.specs.Keeps.{KeepsFor, KeepsWhatItDraws};
ghost use Rattle.request_build.specs.Known.{HasFew, HaveFew, Known};
ghost use Rattle.request_build.specs.Laws.{DrawsFor, HasNoFloat, IsNewUnder, IsSoundIfAsked};

/// No number of a request that is built is held as a float: so what is written of it is told by its value.
pub fn built_requests_have_whole_numbers()
    ensures calls { (k : Known) (op : Op) (request : Request) → built k op ≡ Ok (Ask request) → HasNoFloat request }
    ensures parts { (k : Known) (part : Part) (request : Request) → built_part k part ≡ Ok (Ask request) → HasNoFloat request }
{
    built_requests_are_sound();
}

/// A request that makes an object draws one serial, the next, which is the object's, and at most sixteen SSRCs. Any other
/// draws nothing.
pub fn built_requests_draw_few()
    ensures calls { (k : Known) (op : Op) (request : Request) → HaveFew k.producers k.consumers → built k op ≡ Ok (Ask request) → DrawsFor request.makes k.next request.next }
    ensures parts { (k : Known) (part : Part) (request : Request) → HaveFew k.producers k.consumers → built_part k part ≡ Ok (Ask request) → DrawsFor request.makes k.next request.next }
{
    built_requests_are_sound();
}

/// What is to be kept of a new object has no more encodings than the limit.
pub fn built_requests_keep_few()
    ensures calls { (k : Known) (op : Op) (request : Request) → HaveFew k.producers k.consumers → built k op ≡ Ok (Ask request) → HasFew request.keeps }
    ensures parts { (k : Known) (part : Part) (request : Request) → HaveFew k.producers k.consumers → built_part k part ≡ Ok (Ask request) → HasFew request.keeps }
{
    built_requests_are_sound();
}

/// The object that a request is to make is an open child of the object that the request is issued under, in the same
/// Worker. It is no Worker, isn't running, and has no far end.
pub fn built_objects_are_new()
    ensures calls { (k : Known) (op : Op) (request : Request) → built k op ≡ Ok (Ask request) → IfSome request.makes (IsNewUnder k.objects request.under) }
    ensures parts { (k : Known) (part : Part) (request : Request) → built_part k part ≡ Ok (Ask request) → IfSome request.makes (IsNewUnder k.objects request.under) }
{
    built_requests_are_sound();
}

/// What is to be kept of a new object has exactly the SSRCs that its request draws, which are numbers in a row from the next one
/// on, those of retransmissions behind the others; and a Producer's own SSRCs are mapped to those.
pub fn built_requests_keep_what_they_draw()
    ensures calls { (k : Known) (op : Op) (request : Request) → built k op ≡ Ok (Ask request) → KeepsWhatItDraws k.next request.next request.keeps }
    ensures parts { (k : Known) (part : Part) (request : Request) → built_part k part ≡ Ok (Ask request) → KeepsWhatItDraws k.next request.next request.keeps }
{
    built_requests_are_sound();
}

/// Of a new Router, Producer, Consumer or end of a pipe what belongs to its kind is to be kept, and nothing of any other object.
pub fn built_requests_keep_by_kind()
    ensures calls { (k : Known) (op : Op) (request : Request) → built k op ≡ Ok (Ask request) → KeepsFor request.makes request.keeps }
    ensures parts { (k : Known) (part : Part) (request : Request) → built_part k part ≡ Ok (Ask request) → KeepsFor request.makes request.keeps }
{
    built_requests_are_sound();
}

// All laws at once.
fn built_requests_are_sound()
    ensures calls { (k : Known) (op : Op) → IsSoundIfAsked k (built k op) }
    ensures parts { (k : Known) (part : Part) → IsSoundIfAsked k (built_part k part) }
{
    request_contents::written_contents_have_whole_numbers();
    call_options::what_is_read_fits();
    ortc_map::each_codec_is_mapped();
    ortc_map::what_is_received_is_within_the_capabilities();
    pipe_params::pipe_draws_ssrcs_in_a_row();
}
