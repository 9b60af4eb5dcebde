//! `explain`: the rules and the words of a table behind the answers to addresses.
ghost use Rattle.std.specs.Prelude.{◌≡◌, ◌≢◌, ◌++◌, List, ℕ, IfOk, IfErr, OnOk, IsErrOf};
ghost use Rattle.lpm_limits.specs.Limits.{IsConfig};
ghost use Rattle.lpm_files.specs.Output.{Writes, WritesBeginning};
ghost use Rattle.lpm_commands.specs.Explain.{IsExplanation, AreExplanations, ExplainsBy, IsExplainText, EndsExplain};

use crate::explanation::{covering_rules, reading_of};
use crate::tables::load;
use fib::Fib;
use lpm_cells::PlainCells;
use lpm_files::{Failure, Files, Routes, put_text, read_list};
use lpm_limits::Config;
use lpm_rules::Rules;
use route_text::put_explanation;
use std::alloc::{AllocError, Global};
use std::io::Write;

/// Writes for each address what explains its answer by the routes: the rule that answers, the shorter
/// rules that cover the address, and the words of the table that a lookup reads.
///
/// The file is read and parsed before a route is loaded. The text is formed whole before it is written.
pub fn explain<'a, F: Files, W: Write>(
    alloc: Global,
    files: &F,
    routes: &'a str,
    addrs: &[u32],
    config: Config,
    out: &mut W,
) -> Result<(), Failure<'a>>
    requires { IsConfig config }
    ensures done { OnOk result (Writes
        (IsExplainText config (F.bytes files.now routes.entry.now) addrs.now)
        (W.contents out.old) (W.contents out.new)) }

    // Only a failed write leaves something written, a beginning of that text.
    ensures beginning { IsErrOf result Failure.CannotWrite → WritesBeginning
        (IsExplainText config (F.bytes files.now routes.entry.now) addrs.now)
        (W.contents out.old) (W.contents out.new) }
    ensures untouched { IfErr result (λ e. e ≢ Failure.CannotWrite → out.new ≡ out.old) }
    ensures failure { IfErr result (EndsExplain config routes.entry.now (F.bytes files.now)) }
{
    let list = read_list::<Routes, F>(alloc, files, routes)?;
    let table = load(alloc, routes, &list, config)?;
    let text = text_of_table(alloc, table, addrs)?;
    put_text(out, &text)
}

// The text that explains the answers of this table, which is gone then.
fn text_of_table(alloc: Global, table: Fib<24, 8>, addrs: &[u32]) -> Result<Vec<u8>, AllocError>
    ensures { IfOk result (λ v.
        ExplainsBy table.config.groups table.table.rules addrs.now v.items) }
{
    let (control, memory) = table.into_parts();
    explanations(alloc, &control.rules, &memory.cells, addrs)
}

// The text that explains the answers by these rules, and by the words of their table.
fn explanations(
    alloc: Global,
    rules: &Rules<24, 8>,
    cells: &PlainCells<24, 8>,
    addrs: &[u32],
) -> Result<Vec<u8>, AllocError>
    ensures { IfOk result (λ v.
        AreExplanations rules.now.rules cells.now addrs.now v.items) }
{
    let mut text = Vec::new(alloc);
    for addr in addrs {
        put_explained(alloc, &mut text, rules, cells, *addr)?;
    }
    Ok(text)
}

// Adds what explains the answer to the address.
fn put_explained(
    alloc: Global,
    text: &mut Vec<u8>,
    rules: &Rules<24, 8>,
    cells: &PlainCells<24, 8>,
    addr: u32,
) -> Result<(), AllocError>
    ensures { OnOk result ((here : List ℕ)
        × IsExplanation rules.now.rules cells.now addr here
        × (text.new.items ≡ text.old.items ++ here)) }
{
    let found = covering_rules(alloc, rules, addr)?;
    put_explanation(text, addr, &found, reading_of(cells, addr))
}
