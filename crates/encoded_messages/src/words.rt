//! Words, keys and values.
ghost use Rattle.std.specs.Prelude.{◌≡◌, ◌<◌, ◌∷◌, [], MatchOption, IfSome, length, option_map, bytes_eq};
ghost use Rattle.std.specs.List.{list_any};
ghost use Rattle.encoded_messages.specs.Forms.{keys_of};
ghost use Rattle.encoded_messages.specs.Words as said;

use crate::form::FieldForm;

/// The first word of a text, and what stands behind its blank; `None` if the text is one word.
pub(crate) fn first_word(text: &str) -> Option<(&str, &str)>
    ensures words { MatchOption result (said.words_of text.now ≡ text.now ∷ [])
        (λ cut. said.words_of text.now ≡ cut.0.now ∷ said.words_of cut.1.now) }
    ensures less { IfSome result (λ cut. length cut.1.now < length text.now) }
{
    text.split_once(' ')
}

/// The first part of a list, and what stands behind its comma; `None` if the list has one part.
pub fn first_part(text: &str) -> Option<(&str, &str)>
    ensures parts { MatchOption result (said.parts_of text.now ≡ text.now ∷ [])
        (λ cut. said.parts_of text.now ≡ cut.0.now ∷ said.parts_of cut.1.now) }
    ensures less { IfSome result (λ cut. length cut.1.now < length text.now) }
{
    text.split_once(',')
}

/// What stands before the first `/` of a text, and behind it; `None` if it has none.
pub(crate) fn around_slash(text: &str) -> Option<(&str, &str)>
    ensures { option_map (λ cut. (cut.0.now, cut.1.now)) result ≡ said.cut_at 47 text.now }
{
    text.split_once('/')
}

/// What stands before the first `;` of a text, and behind it; `None` if it has none.
fn cut_at_semicolon(text: &str) -> Option<(&str, &str)>
    ensures { option_map (λ cut. (cut.0.now, cut.1.now)) result ≡ said.cut_at 59 text.now }
{
    text.split_once(';')
}

/// What stands behind the blank with which a text begins.
fn behind_blank(text: &str) -> Option<&str>
    ensures { option_map (λ rest. rest.now) result ≡ said.behind_blank text.now }
{
    text.strip_prefix(' ')
}

/// What stands before the first `;` of a text, and behind the blank that follows it; `None` if there is none of the two.
pub(crate) fn around_semicolon(text: &str) -> Option<(&str, &str)>
    ensures { option_map (λ cut. (cut.0.now, cut.1.now)) result ≡ said.around_semicolon text.now }
{
    let (front, behind) = cut_at_semicolon(text)?;
    Some((front, behind_blank(behind)?))
}

/// The key and the value of a word; `None` if it has no `=`.
pub(crate) fn key_and_value(word: &str) -> Option<(&str, &str)>
    ensures { option_map (λ field. (field.0.now, field.1.now)) result ≡ said.field_of word.now }
{
    word.split_once('=')
}

/// Whether one of these fields has this key.
fn has_key(forms: &[FieldForm<'_>], key: &str) -> bool
    ensures { result ≡ list_any (λ form. bytes_eq form.0.now key.now) forms.now }
{
    forms.iter().any(|form| form.0 == key)
}

/// Whether a word is one of these fields.
#[tactic(auto, using(crate::proofs::WordLemmas::keys_any))]
fn is_known(forms: &[FieldForm<'_>], word: &str) -> bool
    ensures { result ≡ said.is_known (keys_of forms.now) word.now }
{
    match key_and_value(word) {
        Some((key, _)) => has_key(forms, key),
        None => false,
    }
}

/// The first word that is none of these fields.
pub(crate) fn first_unknown<'a>(forms: &[FieldForm<'_>], text: &'a str) -> Option<&'a str>
    ensures { option_map (λ word. word.now) result ≡ said.first_unknown (keys_of forms.now)
        (said.words_of text.now) }
{
    text.split(' ').find(|word| !is_known(forms, word))
}

/// The value of a word that is a field with this key.
fn value_in<'a>(word: &'a str, key: &str) -> Option<&'a str>
    ensures { option_map (λ value. value.now) result ≡ said.value_in key.now word.now }
{
    match key_and_value(word) {
        Some((found, value)) if found == key => Some(value),
        _ => None,
    }
}

/// The value of the first field with this key, and the words behind it.
pub(crate) fn first_value<'a>(text: &'a str, key: &str) -> Option<(&'a str, &'a str)>
    ensures values { MatchOption result (said.values_of key.now (said.words_of text.now) ≡ [])
        (λ found. said.values_of key.now (said.words_of text.now) ≡
        found.0.now ∷ said.values_of key.now (said.words_of found.1.now)) }
    ensures less { IfSome result (λ found. length found.1.now < length text.now) }
{
    let mut left = text;
    while let Some((word, rest)) = first_word(left) {
        if let Some(value) = value_in(word, key) {
            return Some((value, rest));
        }
        left = rest;
    }
    Some((value_in(left, key)?, ""))
}
