//! The laws of what calls leave, proved: a body that does nothing, and a contract that is the law.
ghost use Rattle.unit_io.specs.StepLaws.{NothingKeeps, ReadsKeepPlace, ReadsKeepTables, CallsKeep, FailuresKeep, WritesKeep};

/// Calls that keep what a chip stands for: none, reads, one call after another, one that failed, and a sector written. Reads
/// keep the tables too, also where one failed.
pub fn step_laws()
    ensures none { NothingKeeps }
    ensures reads { ReadsKeepPlace }
    ensures tables { ReadsKeepTables }
    ensures both { CallsKeep }
    ensures failed { FailuresKeep }
    ensures written { WritesKeep }
{}
