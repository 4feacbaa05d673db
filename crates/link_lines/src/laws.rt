//! The law of the lines: its clause is the statement, and its body is empty.
ghost use Rattle.link_lines.specs.Laws.{ReadsTexts};

use std::alloc::Allocator;

/// What is written of an input is read as that input.
pub fn reads_texts<A: Allocator>()
    ensures read { ReadsTexts A }
{}
