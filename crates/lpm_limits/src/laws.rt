//! Laws of refusals. Each function does nothing: its contract is the law.

ghost use Rattle.lpm_limits.specs.Refusals.{HaveOwnNumbers, HaveOwnNames};

/// No two refusals have one number. `NoGroups` is one refusal, whichever worker it names.
#[tactic(auto, using(crate::proofs::RefusalKeys::own_numbers))]
pub fn refusals_have_own_numbers()
    ensures { HaveOwnNumbers }
{}

/// No two refusals have one name.
#[tactic(auto, using(crate::proofs::RefusalKeys::own_names))]
pub fn refusals_have_own_names()
    ensures { HaveOwnNames }
{}
