//! The laws of buckets.
ghost use Rattle.ipl_keys.specs.BucketLaws.{BucketsSpellOnce, NoPairsNoBytes, SetIsFound, RemovedIsGone, SetsKeepOrder, RemovalsKeepOrder, MapsHaveValues, MapsAreSet, MapsAreRemoved, PairsByValues, SetsKeepHome, RemovalsKeepHome};

/// Bytes spell one list of pairs, and no bytes spell none.
pub fn spelling_laws()
    ensures once { BucketsSpellOnce }
    ensures none { NoPairsNoBytes }
{}

/// What is looked up in pairs that changed, and that they stay in order.
pub fn pair_laws()
    ensures set { SetIsFound }
    ensures removed { RemovedIsGone }
    ensures set_order { SetsKeepOrder }
    ensures removed_order { RemovalsKeepOrder }
    ensures by_values { PairsByValues }
{}

/// The pairs as a map: a changed bucket is the map with the key set, or without it.
pub fn map_laws()
    ensures values { MapsHaveValues }
    ensures set { MapsAreSet }
    ensures removed { MapsAreRemoved }
{}

/// Keys stay in their bucket.
pub fn home_laws()
    ensures set { SetsKeepHome }
    ensures removed { RemovalsKeepHome }
{}
