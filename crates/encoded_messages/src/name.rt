//! Where the fields of a message begin.
ghost use Rattle.std.specs.Prelude.{◌≡◌, ◌≢◌, ◌∷◌, ◌++◌, List, ℕ, MatchOption};
ghost use Rattle.encoded_messages.specs.Words.{Lacks};
ghost use Rattle.encoded_messages.specs.Fields as said;

/// What stands behind a front and the blank that follows it; `None` if the text doesn't begin with the two.
fn behind<'a>(text: &'a str, front: &str) -> Option<&'a str>
    ensures { MatchOption result ((rest : List ℕ) → text.now ≢ front.now ++ 32 ∷ rest)
        (λ rest. text.now ≡ front.now ++ 32 ∷ rest.now) }
{
    text.strip_prefix(front)?.strip_prefix(' ')
}

/// What stands before the first `=` of a text, and behind it; `None` if it has none.
fn around_equals(text: &str) -> Option<(&str, &str)>
    ensures { MatchOption result (Lacks 61 text.now)
        (λ cut. (text.now ≡ cut.0.now ++ 61 ∷ cut.1.now) × Lacks 61 cut.0.now) }
{
    text.split_once('=')
}

/// What stands before the last blank of a text, and behind it; `None` if it has none.
fn around_last_blank(text: &str) -> Option<(&str, &str)>
    ensures { MatchOption result (Lacks 32 text.now)
        (λ cut. (text.now ≡ cut.0.now ++ 32 ∷ cut.1.now) × Lacks 32 cut.1.now) }
{
    text.rsplit_once(' ')
}

/// The name of a message, which is what stands before the first word with `=`, and its fields. Where the first word has
/// `=` the name is empty.
pub fn name_and_fields(text: &str) -> (&str, &str)
    ensures name { result.0.now ≡ said.name_of text.now }
    ensures fields { result.1.now ≡ said.fields_of text.now }
{
    let Some((front, _)) = around_equals(text) else {
        return (text, "");
    };
    let Some((name, _)) = around_last_blank(front) else {
        return ("", text);
    };
    match behind(text, name) {
        Some(fields) => (name, fields),
        None => ("", text),
    }
}
