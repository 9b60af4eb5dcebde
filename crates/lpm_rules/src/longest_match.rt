//! The rule that answers an address.

ghost use Rattle.std.specs.Prelude.{◌+◌, ◌^◌, ◌<◌};
ghost use Rattle.lpm_rules.specs.Longest.{IsMatch};

use crate::{Rule, Rules};

impl<const FIRST: u32, const SECOND: u32> Rules<FIRST, SECOND> {
    /// The rule that answers an address: that of the longest prefix of the address that has a rule. It
    /// searches each length, up to the first find.
    pub fn longest_rule(&self, addr: u32) -> Option<Rule<FIRST, SECOND>>
        requires { addr < 2 ^ (FIRST + SECOND) }
        ensures { IsMatch FIRST SECOND self.now.rules addr result }
    {
        let _ = &self.lengths;
        let width = FIRST + SECOND;
        for host in 0..=width {
            if let Some(rule) = self.rule_of_length(addr, width - host) {
                return Some(rule);
            }
        }
        None
    }
}
