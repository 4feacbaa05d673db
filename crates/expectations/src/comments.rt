//! The kinds of a script's comments, by their first characters.
ghost use Rattle.std.specs.Prelude.{◌≡◌, bytes_eq, codes, option_map};
ghost use Rattle.expectations.specs.Comments as said;

/// The form in which a script is recorded.
#[derive(Clone, Copy, Debug, PartialEq, Eq)]
pub struct Recording {
    /// Messages are in words, and the echo of the script's line is left out.
    pub words: bool,
    /// After the lines that came, what the books hold is recorded.
    pub states: bool,
    /// The line of the script, counted from 1, where alone that is recorded: one that gives something, or a comment or blank line
    /// behind it. `None` where all is recorded.
    pub only: Option<usize>,
}

/// The text with which no line may begin: what follows `#! `.
pub fn refused_in(line: &str) -> Option<&str>
    ensures refused { option_map (λ text. text.now) result ≡ said.behind (codes "#! ") line.now }
{
    line.strip_prefix("#! ")
}

/// What the books are expected to hold: what follows `#= `.
pub fn held_in(line: &str) -> Option<&str>
    ensures held { option_map (λ text. text.now) result ≡ said.behind (codes "#= ") line.now }
{
    line.strip_prefix("#= ")
}

/// Whether a comment says that the line before it is meant to come to nothing.
pub fn is_meant_idle(line: &str) -> bool
    ensures meant { result ≡ bytes_eq line.now (codes "#- idle") }
{
    line == "#- idle"
}

/// The path of the site over which a script is run: what follows `#% site `.
pub fn site_in(line: &str) -> Option<&str>
    ensures site { option_map (λ text. text.now) result ≡ said.behind (codes "#% site ") line.now }
{
    line.strip_prefix("#% site ")
}

/// The path of the peer's site: what follows `#% peer `.
pub fn peer_in(line: &str) -> Option<&str>
    ensures peer { option_map (λ text. text.now) result ≡ said.behind (codes "#% peer ") line.now }
{
    line.strip_prefix("#% peer ")
}

/// Which cells the site has over which a script is run, where the script says that itself: what stands behind `#% cells `.
pub fn cells_in(line: &str) -> Option<&str>
    ensures cells { option_map (λ text. text.now) result ≡ said.behind (codes "#% cells ") line.now }
{
    line.strip_prefix("#% cells ")
}

/// Whether a comment says something to a test: what comes, what doesn't, what the books hold, or over which sites it is run.
fn is_mark(line: &str) -> bool
    ensures { result ≡ said.is_mark line.now }
{
    line.starts_with("#>")
        || refused_in(line).is_some()
        || held_in(line).is_some()
        || site_in(line).is_some()
        || peer_in(line).is_some()
        || cells_in(line).is_some()
}

/// What stands behind the number signs, blanks and tabs that begin a text.
fn behind_signs(text: &[u8]) -> &[u8]
    ensures { result.now ≡ said.behind_signs text.now }
{
    let mut rest = text;
    while let [b'#' | b' ' | b'\t', behind @ ..] = rest {
        rest = behind;
    }
    rest
}

/// Whether a text begins as what names a site does behind `%`, or a peer's.
fn begins_as_site(text: &[u8]) -> bool
    ensures { result ≡ said.begins_as_site text.now }
{
    text.starts_with(b"site") || text.starts_with(b"peer") || text.starts_with(b"cells")
}

/// Whether a text begins as a mark does behind `#`. Five equal signs begin a ruler.
fn begins_as_mark(text: &[u8]) -> bool
    ensures { result ≡ said.begins_as_mark text.now }
{
    match text {
        [b'>' | b'!', ..] => true,
        [b'=', ..] => !text.starts_with(b"====="),
        [b'%', behind @ ..] => begins_as_site(behind_signs(behind)),
        [..] => false,
    }
}

/// Whether a comment looks like one that says something to a test, and isn't one: number signs, blanks and tabs in front dropped,
/// it begins with `>`, `!`, `=`, `% site`, `% peer` or `% cells`. Five equal signs begin a ruler.
pub fn is_slipped(line: &str) -> bool
    ensures slipped { result ≡ said.is_slipped line.now }
{
    line.starts_with("#") && begins_as_mark(behind_signs(line.as_bytes())) && !is_mark(line)
}

/// Whether a letter begins a text.
fn begins_with_letter(text: &str) -> bool {
    match text.as_bytes() {
        [letter, ..] => letter.is_ascii_alphabetic(),
        [] => false,
    }
}

/// Whether a comment looks like one that was to name a site, and names neither that, nor a peer's, nor its cells: `#%`, and a word.
///
/// No clause says which do: only a line for a person depends on it.
pub fn names_no_site(line: &str) -> bool {
    match line.strip_prefix("#%") {
        Some(text) => {
            begins_with_letter(text.trim_start())
                && site_in(line).is_none()
                && peer_in(line).is_none()
                && cells_in(line).is_none()
        }
        None => false,
    }
}
