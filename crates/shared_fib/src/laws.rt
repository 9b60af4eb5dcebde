//! What holds of the lookups of a running table's passes, beyond the contract of each. Each function does
//! nothing: its contract is the law. The statement is in `specs/Laws.antt`.

ghost use Rattle.shared_fib.specs.Laws.{LookupsCountVersions, LookupsNeverGoBack, PassesNeverGoBack, VersionsStay};

/// The rules of a version that was begun stay the same, whatever the writer does then.
pub fn versions_stay()
    ensures { VersionsStay }
{}

/// Of two finished lookups of one address, of which the second began with all that was known after the
/// first, the later one's version can be chosen not less than the earlier one's.
pub fn lookups_never_go_back()
    ensures { LookupsNeverGoBack }
{}

/// Of two lookups of one address that a pass has finished, one call after the other, the later one's version
/// can be chosen not less than the earlier one's.
pub fn passes_never_go_back()
    ensures { PassesNeverGoBack }
{}

/// A lookup of a pass that has met a writer at rest before it, and meets it again after it with nothing
/// changed, has for `lo` and for `hi` the number of the writer's versions.
pub fn lookups_count_versions()
    ensures { LookupsCountVersions }
{}
