//! Running tables that open with the rules of a list.

ghost use Rattle.std.specs.Prelude.{◌≡◌, ◌↔◌, ◌^◌, ◌≤◌, length, IfOk, IfErr, IfSome, IsNone};
ghost use Rattle.lpm_limits.specs.Limits.{IsConfig};
ghost use Rattle.lpm_rules.specs.RuleMap.{rules_of};
ghost use Rattle.fib_model.specs.Outcomes.{AreSufficient, AreTooSmall};
ghost use Rattle.shared_fib.specs.Passes.{IsFullBench};
ghost use Rattle.shared_fib.specs.RunningTable.{initial_writer};

use crate::Owner;
use fib::sorted_rules;
use lpm_limits::Config;
use lpm_rules::Rule;
use lpm_writer::OpenError;
use shared_fib::open_sorted;
use std::alloc::Global;

impl Owner {
    /// A running table with the rules of a list, in whatever order they are, with a reader for each worker,
    /// all offline. Of the rules of one prefix the last counts. The rules are there at once, as version 0:
    /// no change is counted.
    ///
    /// `None` exactly where the limits don't suffice: the rules have more than `config.rules` prefixes, or
    /// rules longer than 24 bits lie in more blocks of 256 addresses than there are groups. It refuses
    /// limits out of range, and ends with `Memory` where there is no room for the rules, the words, the
    /// groups or the workers, and where the list has more than 67,108,864 rules.
    pub fn load(
        alloc: Global,
        config: Config,
        rules: &[Rule<24, 8>],
    ) -> Result<Option<Self>, OpenError>
        ensures opened { IfOk result (λ o. IfSome o (λ owner.
            owner.writer ≡ initial_writer owner.writer.identity config (rules_of rules.now))) }
        ensures few { IfOk result (λ _. length rules.now ≤ 2 ^ 26) }
        ensures token { IfOk result (λ o. IfSome o (λ owner.
            owner.writer.identity.initial.token ≡ config.first_token)) }
        ensures workers { IfOk result (λ o. IfSome o (λ owner.
            owner.writer.identity.initial.workers ≡ config.workers)) }
        ensures bench { IfOk result (λ o. IfSome o (λ owner.
            IsFullBench owner.writer.identity owner.bench)) }
        ensures suffice { IfOk result (λ o. IfSome o (λ _.
            AreSufficient 24 8 config (rules_of rules.now))) }
        ensures none { IfOk result (λ o. IsNone o
            → AreTooSmall 24 8 config (rules_of rules.now)) }
        ensures limits { IfOk result (λ _. IsConfig config) }
        ensures bad_config { IfErr result
            (λ error. (error ≡ OpenError.BadConfig) ↔ (¬ IsConfig config)) }
    {
        config.check()?;
        let sorted = sorted_rules(alloc, rules)?;
        match open_sorted(alloc, config, sorted)? {
            Some((table, writer, bench)) => Ok(Some(Owner::of_opened(
                alloc, table, writer, bench,
            )?)),
            None => Ok(None),
        }
    }
}
