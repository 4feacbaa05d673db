//! Where the parts of a line stand.
ghost use Rattle.std.specs.Prelude.{◌≡◌, IfSome, is_none, option_map};
ghost use Rattle.std.specs.List.{list_all, position};
ghost use Rattle.std.specs.Str.Lines.{strip_carriage_return};
ghost use Rattle.decoded_lines.specs.Lines as said;

/// A line without the carriage return that may end it.
pub fn without_return(line: &[u8]) -> &[u8]
    ensures stripped { result.now ≡ strip_carriage_return line.now }
{
    line.strip_suffix(b"\r").unwrap_or(line)
}

/// Where the note of a line begins, with its `#`.
fn note_place(line: &[u8]) -> Option<usize>
    ensures { result ≡ position said.is_mark line.now }
{
    line.iter().position(|octet| *octet == b'#')
}

/// What stands in a line before its first `#`, and the note behind that, if there is one.
pub fn text_and_note(line: &[u8]) -> (&[u8], Option<&[u8]>)
    ensures text { result.0.now ≡ said.text_of line.now }
    ensures note { option_map (λ note. note.now) result.1 ≡ said.note_of line.now }
{
    match note_place(line) {
        Some(place) => (&line[..place], Some(&line[place + 1..])),
        None => (line, None),
    }
}

/// Where the first blank or tab of a text stands.
fn word_end(text: &[u8]) -> Option<usize>
    ensures { result ≡ position said.is_gap text.now }
{
    text.iter()
        .position(|octet| *octet == b' ' || *octet == b'\t')
}

/// The first word of a text, and what stands behind the blank or tab that ends it. Where the text begins with one, the
/// word is empty.
pub fn word_and_rest(text: &[u8]) -> (&[u8], &[u8])
    ensures word { result.0.now ≡ said.first_word text.now }
    ensures rest { result.1.now ≡ said.behind_word text.now }
{
    match word_end(text) {
        Some(place) => (&text[..place], &text[place + 1..]),
        None => (text, b""),
    }
}

/// Whether a text has blanks and tabs alone, or nothing.
pub fn is_blank(text: &[u8]) -> bool
    ensures blank { result ≡ list_all said.is_gap text.now }
{
    text.iter().all(|octet| *octet == b' ' || *octet == b'\t')
}

/// What stands in a line before its note, and the note, if there is one: both without the carriage return that may end the
/// line. `None` for a line that says nothing: it is blank, or blank up to its note.
pub fn said_in(line: &[u8]) -> Option<(&[u8], Option<&[u8]>)>
    ensures blank { is_none result ≡ said.is_blank line.now }
    ensures text { IfSome result (λ parts. parts.0.now ≡ said.text_in line.now) }
    ensures note { IfSome result (λ parts.
        option_map (λ note. note.now) parts.1 ≡ said.note_in line.now) }
{
    let (text, note) = text_and_note(without_return(line));
    if is_blank(text) {
        return None;
    }
    Some((text, note))
}
