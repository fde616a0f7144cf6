ghost use Rattle.std.specs.Prelude.{◌≡◌, ◌+◌, ◌<◌, ◌≤◌, ◌^◌, ℕ, List, [], ◌∷◌, ◌++◌, length, true, Ok};
ghost use Rattle.ms_base.specs.declared.entry.Entry.{Entry};
ghost use Rattle.journal_text.specs.Case.{in_lower_case};
ghost use Rattle.journal_text.specs.Lower.{LineLaws};
ghost use Rattle.journal_text.specs.Reading.{reading_of};
ghost use Rattle.journal_text.specs.WellFormed.{are_well_formed};
ghost use Rattle.journal_text.specs.Written.{entry_line, journal_size, journal_text};

use script_text::{
    texts_are_lines, what_reads_as_a_call_is_written, what_reads_as_a_head_is_written,
    what_reads_as_a_wait_is_written, what_reads_as_a_word_is_written, words_make_lines,
    written_calls_read_back, written_heads_read_back, written_waits_read_back,
    written_words_read_back,
};

/// What a text is read as is written in as many bytes as the text has.
pub fn what_reads_is_as_long()
    ensures { (text : List ℕ) (seed : ℕ) (entries : List Entry) → reading_of text ≡ Ok (seed, entries) → length (journal_text seed entries) ≡ length text }
{
    line_laws();
}

/// A seed that is read is below 2^60.
pub fn what_reads_has_a_seed()
    ensures { (text : List ℕ) (seed : ℕ) (entries : List Entry) → reading_of text ≡ Ok (seed, entries) → seed < 2 ^ 60 }
{
    line_laws();
}

/// Each entry that is read is one that can be written.
pub fn what_reads_is_well_formed()
    ensures { (text : List ℕ) (seed : ℕ) (entries : List Entry) → reading_of text ≡ Ok (seed, entries) → are_well_formed entries ≡ true }
{
    line_laws();
}

/// The text of a journal, whose seed is below 2^60 and whose entries can be written, is read as that
/// seed and those entries.
pub fn written_journals_read_back()
    ensures { (seed : ℕ) (entries : List Entry) → seed < 2 ^ 60 → are_well_formed entries ≡ true → reading_of (journal_text seed entries) ≡ Ok (seed, entries) }
{
    line_laws();
}

/// Two journals with one text, whose seeds are below 2^60 and whose entries can be written, are one
/// journal.
pub fn journals_differ_by_text()
    ensures { (seed other_seed : ℕ) (entries others : List Entry) → seed < 2 ^ 60 → other_seed < 2 ^ 60 → are_well_formed entries ≡ true → are_well_formed others ≡ true
        → journal_text seed entries ≡ journal_text other_seed others → (seed ≡ other_seed) × (entries ≡ others) }
{
    line_laws();
}

/// The written text of what a text is read as is that text with the hexadecimal digits of its chunks in lower
/// case: else they are the same, byte for byte.
pub fn what_reads_is_written_but_for_case()
    ensures { (text : List ℕ) (seed : ℕ) (entries : List Entry) → reading_of text ≡ Ok (seed, entries) → journal_text seed entries ≡ in_lower_case text }
{
    line_laws();
}

/// A journal with one more entry is longer by the line of that entry, and a journal with others behind it is no
/// shorter.
pub fn journals_grow_by_lines()
    ensures more { (seed : ℕ) (entries : List Entry) (entry : Entry) → journal_size seed (entries ++ entry ∷ []) ≡ journal_size seed entries + length (entry_line entry) }
    ensures front { (seed : ℕ) (entries others : List Entry) → journal_size seed entries ≤ journal_size seed (entries ++ others) }
{}

/// The text of a journal has at least a byte for each entry.
pub fn entries_take_a_byte_each()
    ensures { (seed : ℕ) (entries : List Entry) → length entries ≤ journal_size seed entries }
{}

// What the crate below promises of lines and words.
fn line_laws()
    ensures { LineLaws }
{
    texts_are_lines();
    words_make_lines();
    written_words_read_back();
    what_reads_as_a_word_is_written();
    written_heads_read_back();
    what_reads_as_a_head_is_written();
    written_calls_read_back();
    what_reads_as_a_call_is_written();
    written_waits_read_back();
    what_reads_as_a_wait_is_written();
}
