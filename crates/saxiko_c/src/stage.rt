//! The owner of a running table, at rest or in a grace period.

use saxiko::{GracePeriod, Owner};

/// The owner of a running table, at rest or in a grace period.
#[derive(Drop)]
pub(crate) enum Stage {
    /// No grace period lasts.
    AtRest(Owner),
    /// A token was started, and no check of it has passed.
    Waiting(GracePeriod),
    /// It goes from one to the other. No caller sees an owner so.
    Moving,
}
