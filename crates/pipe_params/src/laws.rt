//! Laws of the definitions, which the functions of this crate are stated by.

ghost use Rattle.std.specs.Prelude.{◌≡◌, ℕ, ◌+◌, ◌*◌, ◌^◌, ◌≤◌, Bool, false, length, All};
ghost use Rattle.std.specs.List.{range_with_len};
ghost use Rattle.std.specs.List.Sorted.{IsStrictlyIncreasing};
ghost use Rattle.rtp_params.specs.Names.{is_rtx};
ghost use Rattle.rtp_params.specs.Readable.{IsParams};
ghost use Rattle.rtp_params.specs.declared.params.Params.{Params};
ghost use Rattle.pipe_params.specs.Pipe.{pipe_params, ssrcs_drawn, ssrcs_of};

/// The SSRCs of a pipe, those of the retransmissions behind the others, are the numbers from the first one on: one for
/// each encoding, or two with retransmissions. No two are one.
pub fn pipe_draws_ssrcs_in_a_row()
    ensures row { (consumable : Params) (with_rtx : Bool) (first : ℕ) → ssrcs_of (pipe_params consumable with_rtx first).encodings ≡ range_with_len first (ssrcs_drawn with_rtx (length consumable.encodings)) }
    ensures each_once { (consumable : Params) (with_rtx : Bool) (first : ℕ) → IsStrictlyIncreasing (ssrcs_of (pipe_params consumable with_rtx first).encodings) }
{}

/// A pipe without retransmissions has no codec for them.
pub fn pipe_without_rtx_has_no_rtx()
    ensures { (consumable : Params) (first : ℕ) → All (λ codec. is_rtx codec ≡ false) (pipe_params consumable false first).codecs }
{}

/// What goes through a pipe of parameters that can be read can be read: so it is read back from the value that it is
/// written as.
pub fn what_goes_through_a_pipe_can_be_read()
    ensures { (consumable : Params) (with_rtx : Bool) (first : ℕ) → IsParams consumable → first + 2 * length consumable.encodings ≤ 2 ^ 32 → IsParams (pipe_params consumable with_rtx first) }
{}
