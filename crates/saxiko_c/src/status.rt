//! What calls answer: 0 or more, or an error number of Linux below 0.

ghost use Rattle.std.specs.Prelude.{◌≡◌};
ghost use Rattle.saxiko_c.specs.Status.{add_status, status_of_refusal};

use lpm_limits::Refusal;
use lpm_rules::Put;

pub(crate) const EPERM: i32 = -1;

pub(crate) const ENOENT: i32 = -2;

pub(crate) const E2BIG: i32 = -7;

pub(crate) const EAGAIN: i32 = -11;

pub(crate) const ENOMEM: i32 = -12;

pub(crate) const EBUSY: i32 = -16;

pub(crate) const EINVAL: i32 = -22;

pub(crate) const ENOSPC: i32 = -28;

pub(crate) const EDOM: i32 = -33;

pub(crate) const EOVERFLOW: i32 = -75;

pub(crate) const EALREADY: i32 = -114;

/// The error number of a refusal.
pub(crate) fn of_refusal(refusal: Refusal) -> i32
    ensures { result ≡ status_of_refusal refusal }
{
    match refusal {
        Refusal::BadLength => EINVAL,
        Refusal::BadHop => EINVAL,
        Refusal::TooManyRules => ENOSPC,
        Refusal::NoSuchRule => ENOENT,
        Refusal::BadConfig => EINVAL,
        Refusal::Exhausted => EOVERFLOW,
        Refusal::NoGroups { oldest: None } => ENOSPC,
        Refusal::NoGroups { oldest: Some(_) } => EBUSY,
        Refusal::NoWorkers => EINVAL,
        Refusal::Memory => ENOMEM,
        Refusal::NoSuchWorker => EINVAL,
        Refusal::Taken => EBUSY,
        Refusal::NoThread => EAGAIN,
        Refusal::NotOnline => EPERM,
        Refusal::AlreadyOnline => EALREADY,
    }
}

/// What an add answers.
pub(crate) fn of_add(added: Result<Put, Refusal>) -> i32
    ensures { result ≡ add_status added }
{
    match added {
        Ok(Put::Unchanged) => 0,
        Ok(Put::Added) => 1,
        Ok(Put::Replaced) => 2,
        Err(refusal) => of_refusal(refusal),
    }
}
