// What is known of configurations.
ghost use Rattle.guid_config.specs.Laws.{AnswersAreOne, PairsAreInOrder};

/// Does nothing. Its contract says that what `read` tells of the bytes holds of no other answer: so each
/// comes exactly where it is stated, but for want of memory.
pub fn law_of_answers()
    ensures { AnswersAreOne }
{}

/// Does nothing. Its contract says that the denied pairs of a setup are those that are written, each as
/// often, with none before the one in front of it.
pub fn law_of_pairs()
    ensures { PairsAreInOrder }
{}
