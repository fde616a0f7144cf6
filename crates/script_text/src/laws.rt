ghost use Rattle.std.specs.Prelude.{◌≡◌, ◌≤◌, length, true, Ok};
ghost use Rattle.script_text.specs.Laws.{CallsAreWritten, CallsReadBack, HeadsAreWritten, HeadsReadBack, TextsAreLines, WaitsAreWritten, WaitsReadBack, WordsAreWritten, WordsMakeLines, WordsReadBack};
ghost use Rattle.script_text.specs.Script.{is_script, max_script, script_of, script_text};
ghost use Rattle.script_text.specs.declared.script.Script.{Script};

/// A line is the first of a text that goes on behind its line feed; and no line of a text has a line feed.
pub fn texts_are_lines()
    ensures { TextsAreLines }
{}

/// Plain words with spaces between them are a line, and the words of that line. What stands behind a space of a line
/// is a line.
pub fn words_make_lines()
    ensures { WordsMakeLines }
{}

/// The word of a value, other than a JSON text, has no blank and is read as that value.
pub fn written_words_read_back()
    ensures { WordsReadBack }
{}

/// A word that is read as a value is written as it stood, but with the digits of bytes in lower case; and the value has
/// a word.
pub fn what_reads_as_a_word_is_written()
    ensures { WordsAreWritten }
{}

/// The first line of a text, with a seed below 2^60, is read as that seed.
pub fn written_heads_read_back()
    ensures { HeadsReadBack }
{}

/// A first line that is read as a seed has the words that are written for it, and the seed is below 2^60.
pub fn what_reads_as_a_head_is_written()
    ensures { HeadsAreWritten }
{}

/// The text of a call that has a line is read as that call.
pub fn written_calls_read_back()
    ensures { CallsReadBack }
{}

/// A call that is read is written as it stood, but with the digits of a packet in lower case; of the words of one line it
/// has a line again.
pub fn what_reads_as_a_call_is_written()
    ensures { CallsAreWritten }
{}

/// The text of a wait is read as that wait.
pub fn written_waits_read_back()
    ensures { WaitsReadBack }
{}

/// A wait that is read is written as it stood; of the words of one line it has a line again.
pub fn what_reads_as_a_wait_is_written()
    ensures { WaitsAreWritten }
{}

/// The text of a script that can be written, where it is no longer than a script may be, is read as that script.
pub fn written_scripts_read_back()
    ensures { (script : Script) → is_script script ≡ true → length (script_text script) ≤ max_script → script_of (script_text script) ≡ Ok script }
{}
