//! The rules of reflection lines, and the first line that breaks one.

ghost use Rattle.std.specs.Prelude.{◌≡◌, [], ◌+◌};
ghost use Rattle.spv_reflect.specs.Reflection as spec;
ghost use Rattle.spv_reflect.specs.Readings.{line_by as line_read, lines_by, placed_by, first_break, fault_in};

use crate::line::{Line, PlacedLine, number};
use crate::stop::rule;

fn is_line(number: u32, id: u32, line: &Line<'_>) -> bool
    ensures { result ≡ spec.is_line number id (line_read line.now) }
{
    match *line {
        Line::Kernel { id: other, .. } => number == number::KERNEL && other == id,
        Line::Name { id: other, .. } => number == number::ARGUMENT_INFO && other == id,
        Line::Buffer { id: other, .. } => {
            number == number::ARGUMENT_STORAGE_BUFFER && other == id
        }
        Line::Sizes { id: other, .. } => {
            number == number::SPEC_CONSTANT_WORKGROUP_SIZE && other == id
        }
        Line::Wrong {
            id: other,
            number: its,
        } => number == its && other == id,
        Line::Unknown => false,
    }
}

// Whether there is a line of this number with this id.
fn has_line(number: u32, id: u32, lines: &[PlacedLine<'_>]) -> bool
    ensures { result ≡ spec.has_line number id (lines_by lines.now) }
{
    let mut rest = lines;
    while let [line, others @ ..] = rest {
        if is_line(number, id, &line.line) {
            return true;
        }
        rest = others;
    }
    false
}

fn is_known(line: &Line<'_>) -> bool
    ensures { result ≡ spec.is_known (line_read line.now) }
{
    match line {
        Line::Unknown => false,
        _ => true,
    }
}

fn has_operands(all: &[PlacedLine<'_>], line: &Line<'_>) -> bool
    ensures { result ≡ spec.has_operands (lines_by all.now) (line_read line.now) }
{
    match *line {
        Line::Wrong { .. } => false,
        Line::Buffer { kernel, name, .. } => {
            has_line(number::KERNEL, kernel, all) && has_line(number::ARGUMENT_INFO, name, all)
        }
        _ => true,
    }
}

fn is_argument(kernel: u32, line: &Line<'_>) -> bool
    ensures { result ≡ spec.is_argument kernel (line_read line.now) }
{
    match *line {
        Line::Buffer { kernel: other, .. } => other == kernel,
        _ => false,
    }
}

// How many of these lines are an argument of a kernel's line.
fn arguments_among(kernel: u32, lines: &[PlacedLine<'_>]) -> usize
    ensures { result ≡ spec.arguments_among kernel (lines_by lines.now) }
{
    let mut count = 0;
    let mut rest = lines;
    while let [line, others @ ..] = rest {
        if is_argument(kernel, &line.line) {
            count += 1;
        }
        rest = others;
    }
    count
}

fn is_in_order(before: &[PlacedLine<'_>], line: &Line<'_>) -> bool
    ensures { result ≡ spec.is_in_order (lines_by before.now) (line_read line.now) }
{
    match *line {
        Line::Buffer {
            kernel,
            ordinal,
            ..
        } => ordinal as usize == arguments_among(kernel, before),
        _ => true,
    }
}

fn keeps(rule: u8, all: &[PlacedLine<'_>], before: &[PlacedLine<'_>], line: &Line<'_>) -> bool
    ensures { result ≡ spec.keeps rule (lines_by all.now) (lines_by before.now) (line_read line.now) }
{
    match rule {
        rule::NUMBER => is_known(line),
        rule::OPERANDS => has_operands(all, line),
        rule::ORDINALS => is_in_order(before, line),
        _ => true,
    }
}

// The place of the first line that breaks a rule.
fn first_broken(rule: u8, lines: &[PlacedLine<'_>]) -> Option<usize>
    ensures { result ≡ first_break rule (lines_by lines.now) [] (placed_by lines.now) }
{
    let mut rest = lines;
    let mut at = 0;
    while let [line, others @ ..] = rest {
        if !keeps(rule, lines, &lines[..at], &line.line) {
            return Some(line.place);
        }
        rest = others;
        at += 1;
    }
    None
}

/// The least rule that a line breaks, and the place of the first line that does.
pub fn fault(lines: &[PlacedLine<'_>]) -> Option<(u8, usize)>
    ensures { result ≡ fault_in (lines_by lines.now) (placed_by lines.now) }
{
    if let Some(place) = first_broken(rule::NUMBER, lines) {
        return Some((rule::NUMBER, place));
    }
    if let Some(place) = first_broken(rule::OPERANDS, lines) {
        return Some((rule::OPERANDS, place));
    }
    if let Some(place) = first_broken(rule::ORDINALS, lines) {
        return Some((rule::ORDINALS, place));
    }
    None
}
