//! A law: the contract of a function that does nothing.
ghost use Rattle.git_date_tool.specs as Spec;

/// Whatever the clock, the environment and the files hold, wrong words are refused: nothing is read or written, and the messages are
/// what is wrong and the usage.
#[tactic(auto, using(crate::proofs::WrongWords::wrong_refused))]
pub fn wrong_words_are_refused()
    ensures { Spec.WrongWordsAreRefused }
{}
