//! How a pass of a value is split off another one, joined to it, and looks at the history.
ghost use Rattle.std.specs.Prelude.{◌≡◌, IfSome, IfNone};
ghost use Rattle.model.specs.declared.turn.Kind.TheVariants as kinds;
ghost use Rattle.history.specs.History.{IsBeginning, Knows};
ghost use Rattle.history.specs.Steps.{TakesAtMost, JoinsWithin};
ghost use Rattle.lock_free_value.specs.Calls.{seen, table_of, view, value_of_pass, producer_view, value_of_producer};
ghost use Rattle.lock_free_value.specs.Calls.{HasHistory, code_of};
ghost use Rattle.lock_free_value.specs.Calls.{IsSame, SamePass, Joins, PassJoins, ProducerJoins};
ghost use Rattle.lock_free_value.specs.ValueContracts.{HasSplit};

use super::drives::Look;
use super::rule::ValueRule;
use super::{Held, Pass, Producer, Token};
use history::plays::{Both, Cut};
use steps::atomic::VERSION;
use steps::words::Words;

impl<T: Words> Held<T, ValueRule<T>> {
    /// Makes a new seat of the same value, which has seen the same and made nothing. None where no further reference
    /// can be counted (no clause says when).
    pub fn split(&mut self) -> Option<Token<T>>
        ensures table { table_of self.new ≡ table_of self.old }
        ensures new { IfSome result (λ t. table_of t ≡ table_of self.old) }
        ensures cut { IfSome result (λ t. HasSplit (seen self.old) (seen self.new) (seen t)) }
        ensures made { (seen self.new).made ≡ (seen self.old).made }
        ensures none { IfNone result (seen self.new ≡ seen self.old) }
        ensures steps { TakesAtMost 1 (seen self.old) (seen self.new) }
    {
        let seated = self.seated.split::<Cut>()?;
        Some(Held { seated })
    }

    /// Takes in another seat of the value, and then looks at the whole history.
    pub fn join(&mut self, other: Token<T>)
        requires { table_of other ≡ table_of self.old }
        ensures same { Joins self.old other self.new }
        ensures steps { JoinsWithin 2 (seen self.old) (seen other) (seen self.new) }
    {
        let Held { seated: other } = other;
        self.seated.join::<Both>(other);
        let _ = self.seated.look::<Look>(VERSION);
    }

    /// Looks at the whole history, by at most one load.
    pub fn look(&mut self)
        ensures same { IsSame self.old self.new }
        ensures made { (seen self.new).made ≡ (seen self.old).made }
        ensures steps { TakesAtMost 1 (seen self.old) (seen self.new) }
    {
        let _ = self.seated.look::<Look>(VERSION);
    }
}

impl<T: Words> Pass<T> {
    /// What the pass has seen is the history of a run of the machine, whose turns it knows. It does nothing. This
    /// project's own.
    pub fn history(&self)
        ensures run { Knows (code_of self.now.token) kinds.Atomic 1 (view self.now) }
        ensures history { HasHistory (code_of self.now.token) (view self.now) }
    {
        let _ = &self.token;
    }

    /// Makes a new pass of the same value, which has seen the same and made nothing. This one keeps what it made, and
    /// each has half of this one's share. None, and nothing changes, where no further pass can be counted (no clause
    /// says when). At most one step. This project's own.
    pub fn split(&mut self) -> Option<Pass<T>>
        ensures value { value_of_pass self.new ≡ value_of_pass self.old }
        ensures new { IfSome result (λ p. value_of_pass p ≡ value_of_pass self.old) }
        ensures cut { IfSome result (λ p. HasSplit (view self.old) (view self.new) (view p)) }
        ensures none { IfNone result (view self.new ≡ view self.old) }
        ensures steps { TakesAtMost 1 (view self.old) (view self.new) }
    {
        let token = self.token.split()?;
        Some(Pass { token })
    }

    /// Takes in what the other pass of the value made, and its share. What both had seen are beginnings of one history.
    /// Who then has the whole share has made all of it. At most two steps. This project's own.
    pub fn join(&mut self, other: Pass<T>)
        requires { value_of_pass other ≡ value_of_pass self.old }
        ensures same { PassJoins self.old other self.new }
        ensures steps { JoinsWithin 2 (view self.old) (view other) (view self.new) }
    {
        let Pass { token } = other;
        self.token.join(token);
    }

    /// Looks at the whole history, by at most one load. Who has the whole share has made all of it. This project's own.
    pub fn look(&mut self)
        ensures same { SamePass self.old self.new }
        ensures made { (view self.new).made ≡ (view self.old).made }
        ensures steps { TakesAtMost 1 (view self.old) (view self.new) }
    {
        self.token.look();
    }
}

impl<'a, T: Words> Producer<'a, T> {
    /// What the guard's pass has seen is the history of a run of the machine, whose turns it knows. It does
    /// nothing. This project's own.
    pub fn history(&self)
        ensures run { Knows (code_of self.now.token) kinds.Atomic 1 (producer_view self.now) }
        ensures history { HasHistory (code_of self.now.token) (producer_view self.now) }
    {
        let _ = &self.token;
    }

    /// Takes in what a pass of the value made, and its share. At most two steps. This project's own.
    pub fn join(&mut self, other: Pass<T>)
        requires { value_of_pass other ≡ value_of_producer self.old }
        ensures same { ProducerJoins self.old other self.new }
        ensures steps { JoinsWithin 2 (producer_view self.old) (view other) (producer_view self.new) }
    {
        let token = other.into_token();
        self.token.join(token);
    }
}
