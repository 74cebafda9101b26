//! Calls once more, each with a clause that no other client has a use for, so that the clause cannot go out of the call
//! unnoticed. What a wrong body would leave, and the clause refuses, stands in `proofs/WrongBodies.antt`.
ghost use Rattle.lock_free.specs.HistorySteps.{TakesAtMost};
ghost use Rattle.lock_free.specs.Loan.Sender.{IsLoaned, pass_view};
ghost use Rattle.lock_free.specs.ReleaseState.TheVariants.{Unlocked};
ghost use Rattle.lock_free.specs.Unique.Contracts.{HasGiven};
ghost use Rattle.lock_free.specs.Value.Calls.{view};

use lock_free::spmc::unrestricted_atomic::Pass;
use lock_free::spsc::loan::LoanSender;
use lock_free::words::Words;

pub mod containers;
pub mod histories;
pub mod owners;
pub mod queues;
pub mod sets;
pub mod shares;
pub mod values;

/// A loan that is given up is given back to the set.
pub fn give_up(sender: &mut LoanSender<'_>, index: u32)
    requires { IsLoaned index sender.old }
    ensures given { HasGiven index Unlocked (pass_view sender.old) (pass_view sender.new) }
{
    sender.give_up(index);
}

/// A look at a value takes one step.
pub fn look<T: Words>(pass: &mut Pass<T>)
    ensures steps { TakesAtMost 1 (view pass.old) (view pass.new) }
{
    pass.look();
}
