//! The laws of keys, proved: a body that does nothing, and a contract that is the law.
ghost use Rattle.ipl_keys.specs.Laws.{
  KeysAreOne,
  SessionsSeeKeys,
  RestingStatesHaveKeys,
  BeginsKeepKeys,
  WritesKeepKeys,
  CommitsKeepKeys,
  BatchesKeepKeys,
  AbortsKeepKeys,
};
ghost use Rattle.ipl_keys.specs.Keeps.{KeptKeysLast};

/// Records have one map of keys; a session sees its keys in the buckets that it sees; each operation
/// on names is one on keys; and whatever a power cut leaves of a store that keeps keys has them.
pub fn key_laws()
    ensures one { KeysAreOne }
    ensures seen { SessionsSeeKeys }

    // operations
    ensures at_rest { RestingStatesHaveKeys }
    ensures begins { BeginsKeepKeys }
    ensures writes { WritesKeepKeys }
    ensures commits { CommitsKeepKeys }
    ensures batches { BatchesKeepKeys }
    ensures aborts { AbortsKeepKeys }

    // over a chip
    ensures kept { KeptKeysLast }
{}
