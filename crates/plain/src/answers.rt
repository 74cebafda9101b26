//! The numbers that calls are handed as answers, made from what a client's closures say.
ghost use Rattle.std.specs.Prelude.{◌≡◌, if◌then◌else◌};
ghost use Rattle.plain.specs.Callable.{index_in, as_answer};

use steps::ask::Question;
use steps::enums::CallbackProgression;

/// Returns the index that a question is about, whichever question it is.
pub fn index_in(question: Question<()>) -> usize
    ensures { result ≡ index_in question }
{
    match question {
        Question::Index(index) => index,
        Question::Owned(_, index) => index,
        Question::Value(index, ()) => index,
    }
}

/// Turns what a closure says into the answer to a call: 1 for `Continue`, 0 for `Stop`.
pub fn as_answer(progression: CallbackProgression) -> u64
    ensures { result ≡ as_answer progression }
{
    match progression {
        CallbackProgression::Continue => 1,
        CallbackProgression::Stop => 0,
    }
}

/// Turns yes or no into the answer to a call: 1 or 0.
pub fn as_yes(yes: bool) -> u64
    ensures { result ≡ if yes then 1 else 0 }
{
    if yes { 1 } else { 0 }
}
