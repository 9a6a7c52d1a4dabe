// Calls: the table of answers, then what the call does.
ghost use Rattle.rules.specs.declared.event.Event.TheVariants.{Call as CallEvent};
ghost use Rattle.kernel.specs.Follows.{Follows};

use crate::refused;
use effects::perform;
use refusals::of_call;
use rules::answer::Answered;
use rules::event::Call;
use tables::State;

// A futex call.
pub fn call(s: State, words: &mut [u32], c: Call) -> Answered
    ensures { Follows (CallEvent c) s words.old result words.new }
{
    match of_call(s, words, c) {
        Err(x) => refused(x, s),
        Ok(()) => perform(s, words, c),
    }
}
