ghost use Rattle.std.specs.Prelude.{◌≡◌, [], ◌∷◌, All, map, IfErr};
ghost use Rattle.ms_devices.specs.Told.{Tells};
ghost use Rattle.worker_serve.specs.Sending.{AddsBy, CountsBy, Goes, IsNoBreak, IsSayable, act_call, asked_in};

use crate::fault::ServeFault;
use crate::say::say;
use ms_base::Bytes;
use ms_devices::Outbox;
use std::alloc::Global;
use worker_engine::Act;

/// Carries acts out, one after another. None of them asks for a link.
pub(crate) fn carry_out<O: Outbox>(
    alloc: Global,
    acts: &[Act],
    frame: &mut Bytes,
    outbox: &mut O,
) -> Result<(), ServeFault>
    requires { All IsSayable acts.now }
    ensures sent { Tells (AddsBy (Goes result (map act_call acts.now))) (O.calls outbox.old) (O.calls outbox.new) }
    ensures counts { CountsBy result (O.channel_faults outbox.old) (O.channel_faults outbox.new) }
    ensures links { O.link_faults outbox.new ≡ O.link_faults outbox.old }
    ensures no_break { IfErr result IsNoBreak }
{
    for act in acts {
        carry_out_one(alloc, act, frame, outbox)?;
    }
    Ok(())
}

// Carries an act out.
fn carry_out_one<O: Outbox>(
    alloc: Global,
    act: &Act,
    frame: &mut Bytes,
    outbox: &mut O,
) -> Result<(), ServeFault>
    requires { IsSayable act.now }
    ensures sent { Tells (AddsBy (Goes result (act_call act.now ∷ []))) (O.calls outbox.old) (O.calls outbox.new) }
    ensures counts { CountsBy result (O.channel_faults outbox.old) (O.channel_faults outbox.new) }
    ensures links { O.link_faults outbox.new ≡ O.link_faults outbox.old }
    ensures no_break { IfErr result IsNoBreak }
{
    match act {
        Act::Say(payload) => say(alloc, payload.as_slice(), frame, outbox),
        Act::Shut { link } => {
            outbox.shut(*link);
            Ok(())
        }
        // A link is asked for alone.
        Act::Bind { .. } => unreachable!(),
    }
}

/// A link that is asked for, and the address at which it is to be opened.
#[derive(Clone, Copy)]
pub(crate) struct Asked {
    pub(crate) link: u32,
    pub(crate) ip: [u8; 4],
}

/// The link that acts ask for.
pub(crate) fn asked_link(acts: &[Act]) -> Option<Asked>
    ensures { result ≡ asked_in acts.now }
{
    let Act::Bind { link, ip } = acts.first()? else {
        return None;
    };
    let ip = *ip;
    Some(Asked { link: *link, ip })
}
