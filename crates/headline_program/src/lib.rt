//! What the program prints is what a machine has written down, of which `headline` speaks, and where memory is refused to
//! turns it is the same up to there. The functions do nothing: their contracts are laws, and what their words mean stands
//! in `specs`.
#![tactic(auto)]

ghost use Rattle.std.specs.Prelude.{◌≡◌, ◌⊎◌, ℕ, Bool, List, [], ◌∷◌, Ok};
ghost use Rattle.texts.specs.declared.grammar.Setup.{Setup};
ghost use Rattle.texts.specs.Text.{lines, words};
ghost use Rattle.schedule.specs.Output.{machine_of, output_of};
ghost use Rattle.headline_program.specs.Printing.{IsOfMachine};
ghost use Rattle.headline_program.specs.Refused.{IsSameBefore};

/// Where the first line of an input makes a machine, the program's output for it is made of the events of such a machine
/// that turns have reached, in order, and of why turns were refused. That a run writes this output, for the turns to which
/// memory was refused, is what `schedule::run` says.
pub fn printed<T>()
    ensures { (refusals : List Bool) (input first : List ℕ) (rest : List (List ℕ)) (setup : Setup)
        → lines input ≡ first ∷ rest → machine_of (words first) ≡ Ok setup
        → IsOfMachine setup (output_of input refusals).text }
{}

/// The output where memory is refused to turns is that where it is refused to none, or it has the line
/// `refused NoMemory`, and what stands before that line is a beginning of the latter. So an output without this line is
/// that of a run to which no memory was refused.
pub fn refused<T>()
    ensures { (input : List ℕ) (refusals : List Bool)
        → (output_of input refusals ≡ output_of input [])
        ⊎ IsSameBefore (output_of input refusals).text (output_of input []).text }
{}

/// Refused memory changes nothing of how the program ends: well, or at the same malformed line for the same cause.
pub fn ends<T>()
    ensures { (input : List ℕ) (refusals : List Bool)
        → (output_of input refusals).end ≡ (output_of input []).end }
{}
