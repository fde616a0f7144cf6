//! Reading the elements of a header extension where they lie.

ghost use Rattle.std.specs.Prelude.{◌≡◌, ◌≢◌, ◌<◌, ℕ, List, [], ◌∷◌, length, MatchOption};
ghost use Rattle.rtp_extension.specs.declared.form.Form.{Form};
ghost use Rattle.rtp_extension.specs.declared.form.Form.TheVariants.{OneByte, TwoByte};
ghost use Rattle.rtp_extension.specs.Reading.{element_at, elements_in};
ghost use Rattle.rtp_extension.specs.Viewing.{IsSplit, IsDataSplit};

use crate::form::{Form, LAST_ONE_BYTE_ID};
use std::iter::FusedIterator;
use std::marker::Model;

/// In the byte in front of an element of the one-byte form: the number of its bytes, less 1.
const LENGTH_LESS_ONE: u8 = 0x0F;

/// An element's id and its data, and what stands behind it.
type Split<'a> = (u8, &'a [u8], &'a [u8]);

/// The elements of a header extension, each its id and its data. Contracts see it as the list of those
/// that are left.
#[derive(Debug, Drop)]
pub struct Elements<'a> {
    form: Form,
    rest: &'a [u8],
}

impl<'a> Model for Elements<'a> {
    ghost use Rattle.std.specs.Prelude.{ℕ, List};

    ghost Value = { List (ℕ × List ℕ) };

    ghost use Rattle.rtp_extension.specs.Reading.{elements_in};

    ghost view = { λ e. elements_in e.form e.rest.now };
}

impl<'a> Elements<'a> {
    pub(crate) fn of(form: Form, words: &'a [u8]) -> Elements<'a>
        ensures { result ≡ elements_in form words.entry.now }
    {
        Elements { form, rest: words }
    }

    pub(crate) fn none() -> Elements<'a>
        ensures { result ≡ [] }
    {
        Elements {
            form: Form::OneByte,
            rest: &[],
        }
    }
}

impl<'a> Iterator for Elements<'a> {
    ghost use Rattle.std.specs.Iterator.{YieldsFirstBy, item_count};
    ghost use Rattle.rtp_extension.specs.Viewing.{element_value};

    type Item = (u8, &'a [u8]);

    ghost next_gives = { YieldsFirstBy element_value (λ left. left) };

    ghost remaining = { item_count (λ left. left) };

    fn next(&mut self) -> Option<(u8, &'a [u8])> {
        let bytes = skip_padding(self.rest);
        let (id, data, rest) = split_element(self.form, bytes)?;
        self.rest = rest;
        Some((id, data))
    }
}

impl FusedIterator for Elements<'_> {}

// What stands behind the padding at the front of the bytes.
fn skip_padding(bytes: &[u8]) -> &[u8]
    ensures same { (form : Form) → elements_in form result.now ≡ elements_in form bytes.now }
    ensures front { (rest : List ℕ) → result.now ≢ 0 ∷ rest }
{
    let mut left = bytes;
    while let Some((0, behind)) = left.split_first() {
        left = behind;
    }
    left
}

// The element at the front of the bytes, its id and its data, and what stands behind it. `None` where no
// whole element stands there.
fn split_element(form: Form, bytes: &[u8]) -> Option<Split<'_>>
    ensures { MatchOption result (element_at form bytes.now ≡ None) (λ split. IsSplit form bytes.now split.0 split.1.now split.2.now) }
{
    match form {
        Form::OneByte => split_one_byte(bytes),
        Form::TwoByte => split_two_byte(bytes),
    }
}

fn split_one_byte(bytes: &[u8]) -> Option<Split<'_>>
    ensures { MatchOption result (element_at OneByte bytes.now ≡ None) (λ split. IsSplit OneByte bytes.now split.0 split.1.now split.2.now) }
{
    let (first, behind) = bytes.split_first()?;
    let id = *first >> 4;
    if id < 1 || id > LAST_ONE_BYTE_ID {
        return None;
    }
    split_data(id, usize::from(*first & LENGTH_LESS_ONE) + 1, behind)
}

fn split_two_byte(bytes: &[u8]) -> Option<Split<'_>>
    ensures { MatchOption result (element_at TwoByte bytes.now ≡ None) (λ split. IsSplit TwoByte bytes.now split.0 split.1.now split.2.now) }
{
    let (id, behind) = bytes.split_first()?;
    let (len, behind) = behind.split_first()?;
    if *id < 1 {
        return None;
    }
    split_data(*id, usize::from(*len), behind)
}

// An element with this id and so many bytes of data, which stand at the front of these. `None` where not
// all of them are there.
fn split_data(id: u8, len: usize, bytes: &[u8]) -> Option<Split<'_>>
    ensures { MatchOption result (length bytes.now < len) (λ split. IsDataSplit id len bytes.now split.0 split.1.now split.2.now) }
{
    if bytes.len() < len {
        return None;
    }
    let (data, rest) = bytes.split_at(len);
    Some((id, data, rest))
}
