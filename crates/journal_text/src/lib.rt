//! The text of a journal: one line for its seed, and one for each entry. How it is read, written and measured.
#![tactic(auto)]

mod fault;
mod laws;
mod read;
mod size;
mod write;

pub use fault::JournalFault;
pub use laws::{
    entries_take_a_byte_each, journals_differ_by_text, journals_grow_by_lines,
    what_reads_has_a_seed, what_reads_is_as_long, what_reads_is_well_formed,
    what_reads_is_written_but_for_case, written_journals_read_back,
};
pub use read::read_journal;
pub use size::{MAX_JOURNAL, entry_size, head_size};
pub use write::write_journal;

#[cfg(test)]
mod tests;
