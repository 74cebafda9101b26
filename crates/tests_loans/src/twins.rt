//! Calls of a sender with clauses about a loan of another channel. No test can use them: it would need two
//! channels in one function, which the check of borrows does not cover.
ghost use Rattle.std.specs.Prelude.{◌≡◌, IsSomeAnd};
ghost use Rattle.lock_free_loans.specs.Loan.Sender.{IsLoaned};
ghost use Rattle.zero_copy_loans.specs.Ends.{loaned, sender_of, IsForeign, KeepsSends};

use zero_copy_loans::sender::{Back, Loan, Sender};

/// A loan of another channel is not sent: its place comes back, as `IsForeign` says.
pub fn refuse<'a>(sender: &mut Sender<'a, u64>, loan: Loan<'a, u64>) -> Option<Back>
    ensures { ¬ IsLoaned (loaned loan.entry) (sender_of sender.old)
        → IsSomeAnd result (λ y. IsForeign (loaned loan.entry) y sender.old sender.new) }
{
    sender.send(loan)
}

/// A loan of another channel is given up, and no place of this sender changes.
pub fn give_up<'a>(sender: &mut Sender<'a, u64>, loan: Loan<'a, u64>)
    ensures foreign { ¬ IsLoaned (loaned loan.entry) (sender_of sender.old) → sender_of sender.new ≡ sender_of sender.old }
    ensures sends { KeepsSends sender.old sender.new }
{
    sender.give_up(loan);
}
