//! Changes of a table, written as plain numbers.
ghost use Rattle.lpm_bits.specs.Widths.{IsShape};

use super::rule_lists::{prefix_of, rule_of};
use lpm_rules::{Change, Rule};

/// A change as plain numbers.
#[derive(Clone, Copy)]
pub enum Edit {
    /// The bits, the length and the next hop of a rule.
    Add(u32, u32, u32),
    /// The bits and the length of a prefix.
    Delete(u32, u32),
    Flush,
    Reclaim(usize),
    Synchronize,
}

impl Edit {
    /// The change of these numbers. `None` where there is none, as by [`rule_of`](crate::rule_of).
    pub fn change<const FIRST: u32, const SECOND: u32>(self) -> Option<Change<FIRST, SECOND>>
        requires { IsShape FIRST SECOND }
    {
        match self {
            Edit::Add(bits, len, number) => {
                let Rule { prefix, hop } = rule_of((bits, len, number))?;
                Some(Change::Add(prefix, hop))
            }
            Edit::Delete(bits, len) => Some(Change::Delete(prefix_of(bits, len)?)),
            Edit::Flush => Some(Change::Flush),
            Edit::Reclaim(max) => Some(Change::Reclaim(max)),
            Edit::Synchronize => Some(Change::Synchronize),
        }
    }
}
