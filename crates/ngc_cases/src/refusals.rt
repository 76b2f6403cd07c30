//! Lines that are refused, each run as a program of its own.
use crate::cases::Case;
use crate::dry_runs::DryRun;
use crate::tally::Tally;
use crate::workspace::Workspace;
use anyhow::{Context, Result, ensure};
use ng_file::Hold;
use std::rt::Files;

/// What is wrong with a row, if anything is. A row is a line, a bar with a blank on each side, and the fault.
fn wrong_of_row<R: Files + AllocGlobal>(
    rt: &R,
    workspace: &Workspace,
    row: &str,
) -> Result<Option<String>>
where
    R::File: Hold,
{
    let (line, fault) = row.split_once(" | ").context("no bar")?;
    let writes = format!(in rt.alloc(); "REFUSED line 1: {fault}\n")?;
    let run = DryRun::of(line.as_bytes(), writes.as_bytes());
    run.wrong(rt, workspace)
}

/// Runs the rows of a case, and counts each.
pub fn count_rows<R: Files + AllocGlobal + Eprint>(
    rt: &R,
    workspace: &Workspace,
    case: &Case<'_>,
    tally: &mut Tally,
) -> Result<()>
where
    R::File: Hold,
{
    ensure!(case.parts.len() == 1, "no parts stand here");
    let text = case
        .parts
        .first()
        .map_or(b"".as_slice(), |part| part.text.as_slice());
    ensure!(!text.is_empty(), "no lines");
    for row in std::str::from_utf8(text)?.lines() {
        let wrong = wrong_of_row(rt, workspace, row).context(format_args!("{row}"))?;
        tally.count(rt, row, wrong)?;
    }
    Ok(())
}
