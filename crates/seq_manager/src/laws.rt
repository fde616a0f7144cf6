ghost use Rattle.seq_manager.specs.Laws.{AnswersAreSentNumbers, GreatestIsOfAllOutputs, NearestIsTheOnlyOne, ExtendedNumbersAreTheOnlyOnes, StretchKeepsDistances, CallsGoOn};

/// For any list of `sync` and `input` calls on a new manager, what the `input` calls answer are the
/// output numbers of the stretches, which are defined over whole lists and whole numbers.
pub fn answers_are_the_numbers_of_the_stretches()
    ensures { AnswersAreSentNumbers }
{}

/// The number that a manager keeps is the greatest output number of all stretches, modulo 65,536.
pub fn greatest_is_that_of_all_outputs()
    ensures { GreatestIsOfAllOutputs }
{}

/// The extended number of a sequence number is the one whole number that is congruent to it and lies
/// from 32,768 below the greatest to 32,767 above.
pub fn extended_numbers_are_nearest()
    ensures { NearestIsTheOnlyOne }
{}

/// The extended numbers of a stretch are the only whole numbers of which the first is the first sequence
/// number itself and each later one is the one near the greatest of all before it.
pub fn extended_numbers_are_the_only_ones()
    ensures { ExtendedNumbersAreTheOnlyOnes }
{}

/// Behind any calls a further stretch begins one above the greatest output number, and its numbers
/// keep their distances.
pub fn stretch_keeps_its_distances()
    ensures { StretchKeepsDistances }
{}

/// What a list of calls answers is what its first part answers, and then what the rest answers from the
/// state that the first part left.
pub fn calls_go_on_from_the_state()
    ensures { CallsGoOn }
{}
