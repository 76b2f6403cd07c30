//! Printing a run.
use crate::counts::counts_of;
use crate::job::{Line, line_at};
use crate::ticking::DoneLine;
use anyhow::{Context, Result};
use ng_canon::Item;
use ng_commands::push_reply;
use ng_core::{Reply, Status};
use ng_num::{Num, Point, print_length, print_number};
use ng_params::{Index, Params};
use std::alloc::Global;

/// The text of bytes, without a blank or a newline at its end.
fn text_of(alloc: Global, bytes: &[u8]) -> Result<String> {
    let text = std::str::from_utf8(bytes)?;
    Ok(String::from_str(alloc, text.trim_end())?)
}

/// A point as the operator writes it, in millimetres.
pub fn point_text(alloc: Global, point: Point) -> Result<String> {
    let mut bytes = Vec::new(alloc);
    for length in [point.x, point.y, point.z] {
        print_length(&mut bytes, length, *b"  ")?;
        bytes.pop();
    }
    text_of(alloc, bytes.as_slice())
}

/// Prints an operator's command, and the answer of `ngc run`.
pub fn tell_answer<R: Print>(rt: &R, alloc: Global, command: &str, reply: &Reply) -> Result<()> {
    let mut bytes = Vec::new(alloc);
    push_reply(&mut bytes, reply)?;
    let answer = text_of(alloc, bytes.as_slice())?;
    println!(rt; "  {command}: {answer}")?;
    Ok(())
}

/// Prints a status.
pub fn tell_status<R: Print>(rt: &R, alloc: Global, status: &Status) -> Result<()> {
    let mut bytes = Vec::new(alloc);
    push_reply(&mut bytes, &Reply::Status(*status))?;
    let shown = text_of(alloc, bytes.as_slice())?;
    println!(rt; "  {shown}")?;
    Ok(())
}

/// Prints what was handed out under a name.
pub fn tell_items<R: Print>(rt: &R, alloc: Global, name: &str, items: &[Item]) -> Result<()> {
    let counts = counts_of(items).text(alloc)?;
    println!(rt; "  {name:<9}{counts}")?;
    Ok(())
}

/// Prints what a line of the program handed out.
fn tell_line<R: Print>(rt: &R, alloc: Global, line: Line, items: &[Item]) -> Result<()> {
    let counts = counts_of(items).text(alloc)?;
    let Line { number, text } = line;
    println!(rt; "  line {number:>2}  {counts:<14}{text}")?;
    Ok(())
}

/// Prints what each of these lines handed out.
pub fn tell_lines<R: Print>(
    rt: &R,
    alloc: Global,
    lines: &[DoneLine],
    items: &[Item],
) -> Result<()> {
    let mut rest = items;
    for done in lines {
        let (own, after) = rest.split_at(done.items.min(rest.len()));
        tell_line(rt, alloc, line_at(done.place)?, own)?;
        rest = after;
    }
    Ok(())
}

/// A number with six decimals.
pub fn number_text(alloc: Global, number: Num) -> Result<String> {
    let mut bytes = Vec::new(alloc);
    print_number(&mut bytes, number, *b"  ")?;
    text_of(alloc, bytes.as_slice())
}

/// The value of a parameter.
pub fn value_text(alloc: Global, params: &Params<Global>, number: i64) -> Result<String> {
    let index = Index::of(number).context("no such parameter")?;
    number_text(alloc, params.get(index))
}
