//! Laws of the definitions, which the functions of this crate are stated by.

ghost use Rattle.std.specs.Prelude.{◌≡◌, ◌≤◌, ℕ, List, Ok, length};
ghost use Rattle.rtp_params.specs.declared.codec.Codec.{Codec};
ghost use Rattle.rtp_params.specs.declared.params.Caps.{Caps};
ghost use Rattle.call_options.specs.declared.options.ProduceOptions.{ProduceOptions};
ghost use Rattle.call_options.specs.declared.options.ConsumeOptions.{ConsumeOptions};
ghost use Rattle.call_options.specs.Laws.{IsProduceOptions, AreFew};
ghost use Rattle.call_options.specs.Options.{router_options, produce_options, consume_options, caps_options};

/// What is read fits: a Producer has encodings with SSRCs of their own, codecs of its media, and no list has more items
/// than it may have. The function does nothing; its contract is the law.
pub fn what_is_read_fits()
    ensures router { (options : List ℕ) (given : List Codec) → router_options options ≡ Ok given → length given ≤ 32 }
    ensures produced { (options : List ℕ) (given : ProduceOptions) → produce_options options ≡ Ok given → IsProduceOptions given }
    ensures consumed { (options : List ℕ) (given : ConsumeOptions) → consume_options options ≡ Ok given → AreFew given.caps }
    ensures caps { (options : List ℕ) (given : Caps) → caps_options options ≡ Ok given → AreFew given }
{
    rtp_params::what_is_read_fits();
}
