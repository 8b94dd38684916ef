//! The law of limits, as the contract of a function that does nothing.

ghost use Rattle.site.specs.State.{FitIsWithin};

/// A site whose memory fits its store is within the protocol's limits.
pub fn fit_is_within()
    ensures { FitIsWithin }
{}
