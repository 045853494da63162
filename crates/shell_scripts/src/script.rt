//! The lines of a script.
ghost use Rattle.std.specs.Prelude.{◌≡◌, ◌<◌, ◌==◌, ◌∷◌, length, IfSome, option_map, position};
ghost use Rattle.std.specs.List.{slice_split};
ghost use Rattle.shell_scripts.specs.Script.{is_skipped, is_fault, asked_by, first_fault, meaning, parts_left};

use crate::line::Line;
use crate::parsing::parse;

/// What stands before the first such byte, and what stands after it where there is one.
pub fn cut_at(bytes: &[u8], at: u8) -> (&[u8], Option<&[u8]>)
    ensures parts { slice_split (λ b. b == at) bytes.now
        ≡ result.0.now ∷ parts_left at (option_map (λ rest. rest.now) result.1) }
    ensures shorter { IfSome result.1 (λ rest. length rest.now < length bytes.now) }
{
    match place_of(bytes, at) {
        Some(place) => (&bytes[..place], Some(bytes.split_at(place + 1).1)),
        None => (bytes, None),
    }
}

fn place_of(bytes: &[u8], at: u8) -> Option<usize>
    ensures place { result ≡ position (λ b. b == at) bytes.now }
    ensures within { IfSome result (λ place. place < length bytes.now) }
{
    bytes.iter().position(|byte| *byte == at)
}

/// Whether the line is passed over: an empty one, or a comment.
pub fn is_skipped(line: &[u8]) -> bool
    ensures { result ≡ is_skipped line.now }
{
    line.is_empty() || line[0] == b'#'
}

/// What the line asks for: nothing where it is skipped or outside the grammar.
pub fn request(line: &[u8]) -> Option<Line<'_>>
    ensures { option_map meaning result ≡ asked_by line.now }
{
    if is_skipped(line) { None } else { parse(line) }
}

/// Whether the line is neither skipped nor in the grammar.
pub fn is_fault(line: &[u8]) -> bool
    ensures { result ≡ is_fault line.now }
{
    !is_skipped(line) && parse(line).is_none()
}

/// The number of the first line that is neither skipped nor in the grammar, counted from 1.
pub fn first_fault(script: &[u8]) -> Option<u64>
    ensures { result ≡ first_fault script.now }
{
    let mut left = Some(script);
    let mut number = 0u64;
    while let Some(bytes) = left {
        let (line, rest) = cut_at(bytes, b'\n');
        number += 1;
        if is_fault(line) {
            return Some(number);
        }
        left = rest;
    }
    None
}
