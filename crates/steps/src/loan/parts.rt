//! A call on one part of a structure, whose words begin somewhere in those of the whole.
ghost use Rattle.std.specs.Prelude.{◌≡◌};
ghost use Rattle.steps.specs.Loan.Parts.{shifted, part_after};

use crate::ask::{After, Ask, Want};
use crate::routine::Routine;

/// What a call wants that asks for words of a part, where the part begins at this word.
#[inline(always)]
pub fn shifted(base: usize, want: Want<()>) -> Want<()>
    ensures { result ≡ shifted base want }
{
    match want {
        Want::Ask(ask) => Want::Ask(Ask {
            word: base.wrapping_add(ask.word),
            op: ask.op,
        }),
        Want::Question(question) => Want::Question(question),
        Want::Nothing => Want::Nothing,
    }
}

/// A call on a part that begins at this word. It goes on and ends as the call itself.
#[derive(Clone, Copy)]
pub struct Part<C> {
    pub base: usize,
    pub call: C,
}

/// The steps of the call, each of whose words lies `base` words further on.
impl<C: Routine> Routine for Part<C> {
    ghost use Rattle.steps.specs.Loan.Laws.{part_tells};

    type Given = C::Given;

    type Room = C::Room;

    type End = C::End;

    type Value = C::Value;

    type Answer = C::Answer;

    ghost want_of = { λ c given. shifted c.base (C.want_of c.call given) };

    ghost after = { λ c given old. part_after c.base (C.after c.call given old) };

    ghost kept = { λ c room old. C.kept c.call room old };

    ghost value_of = { λ given room. C.value_of given room };

    ghost answer_of = { λ end given room. C.answer_of end given room };

    ghost store_tells_nothing = { λ c given room m n t.
        part_tells c.base (C.want_of c.call given)
        (λ stores. C.store_tells_nothing c.call given room m n stores) t };

    /// Asks for what the inner call asks for, `base` words further on.
    #[inline(always)]
    fn ask(self, given: &C::Given) -> Want<()> {
        shifted(self.base, self.call.ask(given))
    }

    /// Goes on as the inner call does, and ends as it ends.
    #[inline(always)]
    fn take(self, given: &C::Given, room: &mut C::Room, answer: u64) -> After<Part<C>, C::End> {
        match self.call.take(given, room, answer) {
            After::GoOn(call) => After::GoOn(Part {
                base: self.base,
                call,
            }),
            After::Done(end) => After::Done(end),
        }
    }

    fn value(given: &C::Given, room: &C::Room) -> C::Value {
        C::value(given, room)
    }

    #[inline(always)]
    fn answer(end: C::End, given: &C::Given, room: &C::Room) -> C::Answer {
        C::answer(end, given, room)
    }
}
