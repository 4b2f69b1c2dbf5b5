//! The physical line on which a word of a line begins (slapd.conf(5), "GENERAL FORMAT").

ghost use Rattle.std.specs.Prelude.{◌≡◌, ◌≤◌, ◌+◌, ◌-◌, [], IfOk, IfSome, drop, length, map, option_copied};
ghost use Rattle.dir_names.specs.Cut.{parts_at};
ghost use Rattle.dir_names.specs.Inside.Left.{parts_left};
ghost use Rattle.dir_names.specs.Trimming.{without_return};
ghost use Rattle.dir_conf_text.specs.Arguments.{step_of};
ghost use Rattle.dir_conf_text.specs.Lines.{physical_lines};
ghost use Rattle.dir_conf_text.specs.PhysicalLines.{folded, line_with, line_with_words};
ghost use Rattle.dir_conf_text.specs.Inside.Wanting.{after_byte, after_bytes, next_spot, wanting_of, words_begun};

use crate::arguments::{Spot, Step, step_at};
use crate::joining::begins_with_blank;
use dir_names::{Memory, is_blank, split_once, without_return};
use std::alloc::Global;

/// The number of the physical line up to which a line has so many words, begun words among them, where the line begins with physical
/// line `number`, from 1. Where the line has fewer it is the number after its last physical line.
///
/// # Errors
///
/// Memory runs out.
pub fn line_with_words(alloc: Global, text: &[u8], number: u64, words: usize) -> Result<u64, Memory>
    requires { length text.now ≤ 16777216 }
    ensures { IfOk result (λ line. line ≡ line_with_words words number text.now) }
{
    let Some(from) = lines_from(text, number) else {
        return Ok(number);
    };
    let lines = folded(alloc, from)?;
    Ok(line_with(words, number, lines.as_slice()))
}

/// The text from a physical line on, if it has that line.
fn lines_from(text: &[u8], number: u64) -> Option<&[u8]>
    ensures rest { map without_return (parts_left 10 (option_copied result)) ≡ drop (number - 1) (physical_lines text.now) }
    ensures few { IfSome result (λ rest. length rest.now + number ≤ length text.now + 1) }
{
    let mut rest = Some(text);
    let mut left = number.saturating_sub(1);
    while left > 0 {
        let Some(more) = rest else {
            return None;
        };
        rest = split_once(more, b'\n').1;
        left -= 1;
    }
    rest
}

/// The first physical line of a text, and those that go on with it.
fn folded<'t>(alloc: Global, text: &'t [u8]) -> Result<Vec<&'t [u8]>, Memory>
    ensures lines { IfOk result (λ lines. map (λ line. line.now) lines.items ≡ folded (map without_return (parts_at 10 text.now))) }
    ensures few { IfOk result (λ lines. length lines.items ≤ length text.now + 1) }
{
    let (first, after_first) = split_once(text, b'\n');
    let mut lines = Vec::new(alloc);
    lines.push(without_return(first))?;
    let mut rest = after_first;
    while let Some(more) = rest {
        let (physical, after) = split_once(more, b'\n');
        let physical = without_return(physical);
        if !begins_with_blank(physical) {
            return Ok(lines);
        }
        lines.push(physical)?;
        rest = after;
    }
    Ok(lines)
}

/// Of these physical lines, of which the first has this number, that up to which so many words have begun.
fn line_with(wanted: usize, number: u64, lines: &[&[u8]]) -> u64
    requires { number + length lines.now ≤ 16777218 }
    ensures { result ≡ line_with wanted number [] (map (λ line. line.now) lines.now) }
{
    let mut number = number;
    let mut wanting = Wanting {
        spot: Spot::Between,
        words: wanted,
    };
    for line in lines {
        wanting = after_bytes(wanting, line);
        if wanting.words == 0 {
            return number;
        }
        number += 1;
    }
    number
}

/// Where the reader is, and how many words have yet to begin.
#[derive(Clone, Copy)]
pub(crate) struct Wanting {
    spot: Spot,
    words: usize,
}

fn after_bytes(wanting: Wanting, bytes: &[u8]) -> Wanting
    ensures { wanting_of result ≡ after_bytes (wanting_of wanting) bytes.now }
{
    let mut wanting = wanting;
    for b in bytes {
        wanting = after_byte(wanting, *b);
    }
    wanting
}

fn after_byte(wanting: Wanting, b: u8) -> Wanting
    ensures { wanting_of result ≡ after_byte (wanting_of wanting) b }
{
    Wanting {
        spot: next_spot(wanting.spot, b),
        words: wanting.words.saturating_sub(words_begun(wanting.spot, b)),
    }
}

fn next_spot(spot: Spot, b: u8) -> Spot
    ensures { result ≡ next_spot (step_of spot b) }
{
    match step_at(spot, b) {
        Step::Skip(next) | Step::Take(next) => next,
        Step::Close => Spot::Between,
    }
}

/// Between words any byte but white space begins one.
fn words_begun(spot: Spot, b: u8) -> usize
    ensures { result ≡ words_begun spot b }
{
    match spot {
        Spot::Between if !is_blank(b) => 1,
        _ => 0,
    }
}
