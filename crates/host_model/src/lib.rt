//! What a host is: what it knows, and what each thing that it hears makes of that. The code of a host stands above this crate;
//! here are the definitions that it meets, and the laws that hold of every journal.
#![tactic(auto)]

mod drawn;
mod due;
mod laws;
mod settled;
mod standing;

pub use drawn::{serials_are_drawn_once, ssrcs_are_drawn_once, ssrcs_are_held_once};
pub use due::Due;
pub use laws::{
    calls_settle_once, hosts_are_sound, ids_are_numbered, notes_stand, objects_close_once,
    slots_have_workers, what_a_host_knows_fits,
};
pub use settled::{requests_settle_once, settled_requests_stay_settled};
pub use standing::{
    calls_find_what_they_need, objects_open_once, objects_stand_by_kind,
    open_objects_are_in_open_workers, open_objects_are_kept, requests_wait_under_open_objects,
    running_workers_are_up, slots_end_with_their_workers,
};
