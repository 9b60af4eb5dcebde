//! What a trace begins with, and where its words stand.

/// What a trace begins with. All words of the two tables and all counters are 0, and no update was
/// begun.
#[derive(Clone, Copy, Debug, PartialEq, Eq)]
pub struct InitialState {
    /// How many bits of an address choose its first word.
    pub first: u32,
    /// How many bits of an address choose its word in a group.
    pub second: u32,
    /// How many groups there are.
    pub groups: usize,
    /// How many workers there are.
    pub workers: usize,
    /// The token before the first step.
    pub first_token: u64,
}

/// Two to this power, or the greatest number where that is less.
pub(crate) fn power_of_two(exponent: u32) -> u64 {
    1u64.checked_shl(exponent).unwrap_or(u64::MAX)
}

impl InitialState {
    /// How many bits an address has.
    pub(crate) fn width(&self) -> u32 {
        self.first.saturating_add(self.second)
    }

    /// How many addresses there are.
    pub(crate) fn addresses(&self) -> u64 {
        power_of_two(self.width())
    }

    /// The greatest address.
    pub(crate) fn last_address(&self) -> u32 {
        u32::try_from(self.addresses().saturating_sub(1)).unwrap_or(u32::MAX)
    }

    /// How many words a group has.
    fn group_size(&self) -> u64 {
        power_of_two(self.second)
    }

    /// How many first words there are.
    pub(crate) fn firsts(&self) -> u64 {
        power_of_two(self.first)
    }

    /// How many second words there are.
    pub(crate) fn seconds(&self) -> u64 {
        self.group_size().saturating_mul(self.groups as u64)
    }

    /// The index of an address's first word.
    pub(crate) fn first_index(&self, addr: u32) -> u64 {
        self.group_of(u64::from(addr))
    }

    /// The index of an address's second word in this group.
    pub(crate) fn second_index(&self, group: u32, addr: u32) -> u64 {
        let size = self.group_size();
        let place = u64::from(addr).checked_rem(size).unwrap_or(0);
        u64::from(group).saturating_mul(size).saturating_add(place)
    }

    /// The group of a second word.
    pub(crate) fn group_of(&self, index: u64) -> u64 {
        index.checked_div(self.group_size()).unwrap_or(0)
    }
}
