//! The mark of a controller that may begin a line.
ghost use Rattle.std.specs.Prelude.{◌≡◌};
ghost use Rattle.expectations.specs.Marks as said;

/// A line without the mark of its controller.
pub fn without_mark(line: &str) -> &str
    ensures without { result.now ≡ said.without_mark line.now }
{
    match line.strip_prefix("1: ") {
        Some(rest) => rest,
        None => line.strip_prefix("2: ").unwrap_or(line),
    }
}
