ghost use Rattle.std.specs.Prelude.{◌≡◌, ◌≢◌, ◌<◌, ◌==◌, ◌∷◌, [], true, false, Ok, IfSome, MatchOption, MatchResult, length, position};
ghost use Rattle.std.specs.Option.{option_copied};
ghost use Rattle.ms_base.specs.Words.{line_feed};
ghost use Rattle.ms_base.specs.declared.code.Code.TheVariants as code;
ghost use Rattle.script_text.specs.Forms.{cut};
ghost use Rattle.script_text.specs.Gives.{IsCutFault};
ghost use Rattle.script_text.specs.Words.{lines, lines_behind, words, words_behind};
ghost use Rattle.script_text.specs.declared.fault.WordFault.TheVariants as fault;

use crate::fault::WordFault;
use ms_base::Code;

/// The first line, and what stands behind its line feed, where it has one.
pub fn first_line(text: &[u8]) -> (&[u8], Option<&[u8]>)
    ensures pieces { lines text.now ≡ result.0.now ∷ lines_behind (option_copied result.1) }
    ensures shorter { IfSome (option_copied result.1) (λ rest. length rest < length text.now) }
{
    match line_end(text) {
        Some(end) => (&text[..end], Some(&text[end + 1..])),
        None => (text, None),
    }
}

// The place of the first line feed.
fn line_end(text: &[u8]) -> Option<usize>
    ensures { result ≡ position (λ b. b == line_feed) text.now }
{
    text.iter().position(|byte| *byte == b'\n')
}

/// The first word of a line, and what stands behind the space that ends it, where one does.
pub fn first_word(line: &str) -> (&str, Option<&str>)
    ensures { words line.now ≡ result.0.now ∷ words_behind (option_copied result.1) }
{
    match line.split_once(' ') {
        Some((word, rest)) => (word, Some(rest)),
        None => (line, None),
    }
}

/// The first two words behind a space, and what stands behind them. `None` where there are fewer.
pub fn first_two<'a>(rest: Option<&'a str>) -> Option<(&'a str, &'a str, Option<&'a str>)>
    ensures { MatchOption result
        (length (words_behind (option_copied rest.entry)) < 2)
        (λ found. words_behind (option_copied rest.entry) ≡ found.0.now ∷ found.1.now ∷ words_behind (option_copied found.2)) }
{
    let (first, rest) = first_word(rest?);
    let (second, rest) = first_word(rest?);
    Some((first, second, rest))
}

/// The three words behind a space. `None` where there is another number of words.
pub fn three_words<'a>(rest: Option<&'a str>) -> Option<(&'a str, &'a str, &'a str)>
    ensures { MatchOption result
        (length (words_behind (option_copied rest.entry)) ≢ 3)
        (λ found. words_behind (option_copied rest.entry) ≡ found.0.now ∷ found.1.now ∷ found.2.now ∷ []) }
{
    let (first, second, rest) = first_two(rest)?;
    match first_word(rest?) {
        (third, None) => Some((first, second, third)),
        (_, Some(_)) => None,
    }
}

// What follows takes the words behind a space apart. The fault is `words` where there are fewer or more.

// The first word, and what stands behind it.
fn next_word<'a>(rest: Option<&'a str>) -> Result<(&'a str, Option<&'a str>), WordFault>
    ensures { MatchResult result
        (λ found. words_behind (option_copied rest.entry) ≡ found.0.now ∷ words_behind (option_copied found.1))
        (λ wrong. (wrong ≡ fault.Bad code.Words) × (words_behind (option_copied rest.entry) ≡ [])) }
{
    match rest {
        Some(line) => Ok(first_word(line)),
        None => Err(WordFault::Bad(Code::Words)),
    }
}

/// The one word.
pub(crate) fn one_word<'a>(rest: Option<&'a str>) -> Result<&'a str, WordFault>
    ensures { MatchResult result
        (λ word. cut false 0 (words_behind (option_copied rest.entry)) ≡ Ok (word.now ∷ []))
        (λ wrong. IsCutFault wrong (cut false 0 (words_behind (option_copied rest.entry)))) }
{
    match next_word(rest)? {
        (word, None) => Ok(word),
        (_, Some(_)) => Err(WordFault::Bad(Code::Words)),
    }
}

/// The two words.
pub(crate) fn two_words<'a>(rest: Option<&'a str>) -> Result<(&'a str, &'a str), WordFault>
    ensures { MatchResult result
        (λ found. cut false 1 (words_behind (option_copied rest.entry)) ≡ Ok (found.0.now ∷ found.1.now ∷ []))
        (λ wrong. IsCutFault wrong (cut false 1 (words_behind (option_copied rest.entry)))) }
{
    let (word, behind) = next_word(rest)?;
    let last = one_word(behind)?;
    Ok((word, last))
}

// All that stands behind the space.
fn rest_alone<'a>(rest: Option<&'a str>) -> Result<&'a str, WordFault>
    ensures { MatchResult result
        (λ text. cut true 0 (words_behind (option_copied rest.entry)) ≡ Ok (text.now ∷ []))
        (λ wrong. IsCutFault wrong (cut true 0 (words_behind (option_copied rest.entry)))) }
{
    match rest {
        Some(text) => Ok(text),
        None => Err(WordFault::Bad(Code::Words)),
    }
}

/// A word, and the rest of the line.
pub(crate) fn one_and_rest<'a>(rest: Option<&'a str>) -> Result<(&'a str, &'a str), WordFault>
    ensures { MatchResult result
        (λ found. cut true 1 (words_behind (option_copied rest.entry)) ≡ Ok (found.0.now ∷ found.1.now ∷ []))
        (λ wrong. IsCutFault wrong (cut true 1 (words_behind (option_copied rest.entry)))) }
{
    let (word, behind) = next_word(rest)?;
    let last = rest_alone(behind)?;
    Ok((word, last))
}

/// Two words, and the rest of the line.
pub(crate) fn two_and_rest<'a>(
    rest: Option<&'a str>,
) -> Result<(&'a str, &'a str, &'a str), WordFault>
    ensures { MatchResult result
        (λ found. cut true 2 (words_behind (option_copied rest.entry)) ≡ Ok (found.0.now ∷ found.1.now ∷ found.2.now ∷ []))
        (λ wrong. IsCutFault wrong (cut true 2 (words_behind (option_copied rest.entry)))) }
{
    let (word, behind) = next_word(rest)?;
    let (second, last) = one_and_rest(behind)?;
    Ok((word, second, last))
}

/// Three words, and the rest of the line.
pub(crate) fn three_and_rest<'a>(
    rest: Option<&'a str>,
) -> Result<(&'a str, &'a str, &'a str, &'a str), WordFault>
    ensures { MatchResult result
        (λ found. cut true 3 (words_behind (option_copied rest.entry)) ≡ Ok (found.0.now ∷ found.1.now ∷ found.2.now ∷ found.3.now ∷ []))
        (λ wrong. IsCutFault wrong (cut true 3 (words_behind (option_copied rest.entry)))) }
{
    let (word, behind) = next_word(rest)?;
    let (second, third, last) = two_and_rest(behind)?;
    Ok((word, second, third, last))
}
