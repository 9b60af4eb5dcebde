//! Changes of a running table, and its figures after them.
ghost use Rattle.std.specs.Prelude.{◌≡◌};
ghost use Rattle.lpm_bits.specs.Widths.{IsShape};

use super::asserts::assert_at;
use lpm_limits::Config;
use lpm_rules::Rule;
use shared_fib::{Bench, SharedTable, Writer};
use std::process::Abort;
use test_support::{Change, Figures, Plain, USUAL, figures_with, rule_of};

pub(crate) type Ipv4Table = SharedTable<24, 8>;

pub(crate) type Ipv4Writer = Writer<24, 8>;

pub(crate) type SmallTable = SharedTable<4, 4>;

pub(crate) type SmallWriter = Writer<4, 4>;

/// Nine rules, one group and one worker.
pub(crate) const SMALL: Config = Config {
    rules: 9,
    groups: 1,
    ..USUAL
};

/// Makes the change, and the rule's answer is the one that the change names.
pub(crate) fn change<const FIRST: u32, const SECOND: u32>(
    rt: &impl Abort,
    table: &SharedTable<FIRST, SECOND>,
    writer: &mut Writer<FIRST, SECOND>,
    change: Change,
    plain: Plain,
)
    requires shape { IsShape FIRST SECOND }
    requires own { writer.old.identity ≡ table.now }
    ensures own { writer.new.identity ≡ writer.old.identity }
{
    let Rule { prefix, hop } = rule_of::<FIRST, SECOND>(plain).expect(rt, "a rule");
    match change {
        Change::Add(put) => assert_at(rt, plain, writer.add(table, &prefix, hop), Ok(put)),
        Change::Delete => assert_at(rt, plain, writer.delete(table, &prefix), Ok(hop)),
    }
}

pub(crate) fn figures<const FIRST: u32, const SECOND: u32>(
    table: &SharedTable<FIRST, SECOND>,
    writer: &mut Writer<FIRST, SECOND>,
) -> Figures
    requires own { writer.old.identity ≡ table.now }
    ensures own { writer.new.identity ≡ writer.old.identity }
{
    figures_with(
        writer.rules(),
        writer.versions(),
        writer.counts(),
        writer.token(table),
    )
}

/// Gives back what a running table takes. A test that ends with this call needs no proof of its own of how
/// each part is dropped.
pub(crate) fn close<const FIRST: u32, const SECOND: u32>(
    table: SharedTable<FIRST, SECOND>,
    writer: Writer<FIRST, SECOND>,
    bench: Bench,
) {
    drop(bench);
    drop(writer);
    drop(table);
}
