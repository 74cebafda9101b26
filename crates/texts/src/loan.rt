//! The calls of the loan channel, as a schedule names them and as they print.
ghost use Rattle.std.specs.Prelude.{◌≡◌, ◌+◌, ◌≤◌, ◌++◌, length};
ghost use Rattle.texts.specs.Text.{words_left};
ghost use Rattle.texts.specs.Grammar.{Gives};
ghost use Rattle.texts.specs.Loan.{send, give_up, give_back, bare_call, any_loan_call, loan_call, call_text};

use crate::error::Cause;
use crate::grammar::number_at;
use crate::line::Line;
use crate::text::Rest;
use model::event::Start;
use model::families::loan::LoanStart;

/// A send, by the index that these words begin with.
#[tactic(auto, unfolding(crate::specs::Loan::send))]
fn send(words: Rest<'_>) -> Result<(LoanStart, Rest<'_>), Cause>
    ensures { Gives (λ x. (x.0, words_left x.1)) result (send (words_left words.entry)) }
{
    let (index, rest) = number_at(u128::from(u64::MAX), words)?;
    Ok((LoanStart::Send(index as u64), rest))
}

/// A call that gives a loaned index up, by the index that these words begin with.
#[tactic(auto, unfolding(crate::specs::Loan::give_up))]
fn give_up(words: Rest<'_>) -> Result<(LoanStart, Rest<'_>), Cause>
    ensures { Gives (λ x. (x.0, words_left x.1)) result (give_up (words_left words.entry)) }
{
    let (index, rest) = number_at(u128::from(u64::MAX), words)?;
    Ok((LoanStart::GiveUp(index as u64), rest))
}

/// A give-back, by the index that these words begin with.
#[tactic(auto, unfolding(crate::specs::Loan::give_back))]
fn give_back(words: Rest<'_>) -> Result<(LoanStart, Rest<'_>), Cause>
    ensures { Gives (λ x. (x.0, words_left x.1)) result (give_back (words_left words.entry)) }
{
    let (index, rest) = number_at(u128::from(u64::MAX), words)?;
    Ok((LoanStart::GiveBack(index as u64), rest))
}

/// The call with this name that has no argument, if there is one.
fn bare_call(name: &[u8]) -> Option<LoanStart>
    ensures { result ≡ bare_call name.now }
{
    if name == b"loan".as_slice() {
        Some(LoanStart::Loan)
    } else if name == b"take_back".as_slice() {
        Some(LoanStart::TakeBack)
    } else if name == b"receive".as_slice() {
        Some(LoanStart::Receive)
    } else if name == b"reclaim".as_slice() {
        Some(LoanStart::Reclaim)
    } else {
        None
    }
}

/// The call of the loan channel with this name, and the words that are left.
#[tactic(auto, unfolding(crate::specs::Loan::any_loan_call))]
fn any_loan_call<'a>(name: &[u8], words: Rest<'a>) -> Result<(LoanStart, Rest<'a>), Cause>
    ensures { Gives (λ x. (x.0, words_left x.1)) result
        (any_loan_call name.now (words_left words.entry)) }
{
    if name == b"send".as_slice() {
        send(words)
    } else if name == b"give_up".as_slice() {
        give_up(words)
    } else if name == b"give_back".as_slice() {
        give_back(words)
    } else {
        match bare_call(name) {
            Some(start) => Ok((start, words)),
            None => Err(Cause::UnknownCall),
        }
    }
}

/// A call of the loan channel.
#[tactic(auto, unfolding(crate::specs::Loan::loan_call))]
pub fn loan_call<'a>(name: &[u8], words: Rest<'a>) -> Result<(Start<u128>, Rest<'a>), Cause>
    ensures { Gives (λ x. (x.0, words_left x.1)) result
        (loan_call name.now (words_left words.entry)) }
{
    let (start, rest) = any_loan_call(name, words)?;
    Ok((Start::Loan(start), rest))
}

/// Writes a call with its arguments.
pub fn print_call(line: &mut Line, start: LoanStart)
    requires { length line.old + 60 ≤ 256 }
    ensures text { line.new ≡ line.old ++ call_text start }
    ensures short { length line.new ≤ length line.old + 60 }
{
    match start {
        LoanStart::Loan => line.push("loan"),
        LoanStart::Send(index) => {
            line.push("send ");
            line.push_number(u128::from(index));
        }
        LoanStart::GiveUp(index) => {
            line.push("give_up ");
            line.push_number(u128::from(index));
        }
        LoanStart::TakeBack => line.push("take_back"),
        LoanStart::Receive => line.push("receive"),
        LoanStart::GiveBack(index) => {
            line.push("give_back ");
            line.push_number(u128::from(index));
        }
        LoanStart::Reclaim => line.push("reclaim"),
    }
}
