//! The text of a script: its lanes, each a list of steps. And the lines of calls, which scripts and journals share:
//! how their words are read, written and measured.
#![tactic(auto)]

mod call;
mod fault;
mod laws;
mod lines;
mod read;
mod row;
mod script;
mod verb;
mod words;
mod write;

pub use call::{read_await, read_op};
pub use fault::{ScriptFault, WordFault};
pub use laws::{
    texts_are_lines, what_reads_as_a_call_is_written, what_reads_as_a_head_is_written,
    what_reads_as_a_wait_is_written, what_reads_as_a_word_is_written, words_make_lines,
    written_calls_read_back, written_heads_read_back, written_scripts_read_back,
    written_waits_read_back, written_words_read_back,
};
pub use lines::{first_line, first_two, first_word, three_words};
pub use read::{MAX_SCRIPT, read_script};
pub use script::{Lanes, Script, Step, Steps};
pub use words::{
    read_event, read_head, read_hex, read_json, read_lane, read_name, read_number, read_worker,
};
pub use write::{await_size, event_word, op_size, push_await, push_op};

#[cfg(test)]
mod tests;
