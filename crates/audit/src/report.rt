//! The report of a table's counts.

ghost use Rattle.std.specs.Prelude.{◌≡◌, ◌++◌, OnOk, IfOk};
ghost use Rattle.audit.specs.Report.{number_line, group_lines, report_lines, storm_lines};

use itoa::Buffer;
use std::alloc::{AllocError, Global};

/// The counts of a table.
#[derive(Clone, Copy, Debug, PartialEq, Eq)]
pub struct TableCounts {
    /// The rules.
    pub rules: usize,
    /// The changes that made a version of the rule list.
    pub versions: u64,
    /// The groups that blocks have.
    pub in_use: usize,
    /// The groups in limbo.
    pub limbo: usize,
    /// The free groups.
    pub free: usize,
    /// The token number.
    pub token: u64,
}

/// What came of a storm: lookups beside a writer, each answer of which was held against the versions
/// of the rules.
#[derive(Clone, Copy, Debug, PartialEq, Eq)]
pub struct StormReport {
    /// The answers of all workers.
    pub answers: u64,
    /// The changes that were refused.
    pub refused: u64,
    /// The answers that no version explains.
    pub wrong: u64,
    /// The counts of the table in the end.
    pub table: TableCounts,
}

/// Adds the line of a name and a number to the text.
fn put_line(text: &mut Vec<u8>, name: &[u8], number: u64) -> Result<(), AllocError>
    ensures { OnOk result (text.new.items ≡ text.old.items ++ number_line name.now number) }
{
    let mut buffer = Buffer::new();
    text.extend_from_slice(name)?;
    text.push(b' ')?;
    text.extend_from_slice(buffer.format(number).as_bytes())?;
    text.push(b'\n')?;
    Ok(())
}

/// Adds the lines of the groups to the text.
fn put_groups(text: &mut Vec<u8>, report: &TableCounts) -> Result<(), AllocError>
    ensures { OnOk result (text.new.items ≡ text.old.items ++ group_lines report.now) }
{
    put_line(text, b"in use", report.in_use as u64)?;
    put_line(text, b"limbo", report.limbo as u64)?;
    put_line(text, b"free", report.free as u64)
}

/// Adds the lines of the report to the text.
fn put_report(text: &mut Vec<u8>, report: &TableCounts) -> Result<(), AllocError>
    ensures { OnOk result (text.new.items ≡ text.old.items ++ report_lines report.now) }
{
    put_line(text, b"rules", report.rules as u64)?;
    put_line(text, b"versions", report.versions)?;
    put_groups(text, report)?;
    put_line(text, b"token", report.token)
}

/// The report as text, six lines: `rules`, `versions`, `in use`, `limbo`, `free` and `token`, each
/// with a space, its number and a line end.
///
/// `AllocError` comes where room for the text is refused.
pub fn report_text(alloc: Global, report: &TableCounts) -> Result<Vec<u8>, AllocError>
    ensures { IfOk result (λ v. v.items ≡ report_lines report.now) }
{
    let mut text = Vec::new(alloc);
    put_report(&mut text, report)?;
    Ok(text)
}

/// The report of a storm as text, nine lines: `answers`, `refused` and `wrong`, and then those of
/// the table's counts.
///
/// `AllocError` comes where room for the text is refused.
pub fn storm_text(alloc: Global, storm: &StormReport) -> Result<Vec<u8>, AllocError>
    ensures { IfOk result (λ v. v.items ≡ storm_lines storm.now) }
{
    let mut text = Vec::new(alloc);
    put_line(&mut text, b"answers", storm.answers)?;
    put_line(&mut text, b"refused", storm.refused)?;
    put_line(&mut text, b"wrong", storm.wrong)?;
    put_report(&mut text, &storm.table)?;
    Ok(text)
}
