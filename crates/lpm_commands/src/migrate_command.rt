//! `migrate`: an update file of version 1 in version 2.
ghost use Rattle.std.specs.Prelude.{◌≡◌, ◌≢◌, IfOk, IfErr, OnOk, IsErrOf};
ghost use Rattle.lpm_files.specs.Output.{Writes, WritesBeginning};
ghost use Rattle.lpm_commands.specs.Migrate.{IsMigrateText, EndsMigrate};

use lpm_files::{Failure, Files, OldUpdates, put_text, read_list};
use route_text::updates_text;
use std::alloc::Global;
use std::io::Write;

/// Writes the updates of the old file as an update file of version 2.
///
/// The text is formed whole before it is written.
pub fn migrate<'a, F: Files, W: Write>(
    alloc: Global,
    files: &F,
    old: &'a str,
    out: &mut W,
) -> Result<(), Failure<'a>>
    ensures done { OnOk result (Writes (IsMigrateText (F.bytes files.now old.entry.now))
        (W.contents out.old) (W.contents out.new)) }

    // Only a failed write leaves something written, a beginning of that text.
    ensures beginning { IsErrOf result Failure.CannotWrite → WritesBeginning
        (IsMigrateText (F.bytes files.now old.entry.now))
        (W.contents out.old) (W.contents out.new) }
    ensures untouched { IfErr result (λ e. e ≢ Failure.CannotWrite → out.new ≡ out.old) }
    ensures failure { IfErr result (EndsMigrate old.entry.now (F.bytes files.now)) }
{
    let orders = read_list::<OldUpdates, F>(alloc, files, old)?;
    let text = updates_text(alloc, &orders)?;
    put_text(out, &text)
}
