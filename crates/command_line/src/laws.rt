//! What the words of the command line are, proved: bodies that do nothing, and contracts that are laws and examples.
ghost use Rattle.command_line.specs.Laws.{SpelledIsRead, ReadIsSpelled, NothingTogether};
ghost use Rattle.command_line.specs.Laws.{ChipExamples, NoChipExamples};
ghost use Rattle.command_line.specs.Laws.{WordExamples, SpareExamples, FrameExamples, SessionExamples, NumberExamples, TrialExamples};
ghost use Rattle.command_line.specs.Laws.{NoWordExamples, NoSpareExamples, NoFrameExamples, NoSessionExamples, NoNumberExamples, NoTrialExamples};

/// A word names a chip exactly where it is the chip's one spelling.
pub fn chip_word_laws()
    ensures read { SpelledIsRead }
    ensures spelled { ReadIsSpelled }
    ensures examples { ChipExamples }
    ensures others { NoChipExamples }
{}

/// Which words are valid, and what they ask.
pub fn command_line_laws()
    ensures together { NothingTogether }
    ensures examples { WordExamples }
    ensures spares { SpareExamples }
    ensures frames { FrameExamples }
    ensures sessions { SessionExamples }
    ensures numbers { NumberExamples }
    ensures trials { TrialExamples }
    ensures others { NoWordExamples }
    ensures other_spares { NoSpareExamples }
    ensures other_frames { NoFrameExamples }
    ensures other_sessions { NoSessionExamples }
    ensures other_numbers { NoNumberExamples }
    ensures other_trials { NoTrialExamples }
{}
