// Kernel: the code of every event, proved equal to the rules. It stands on refusals, effects and tables.
// Stays: each function takes the tables by value beside the words that it is lent, as README has them for a host; a struct of both would be
// made at each event, for the tables come back in what is answered, and the words do not.
#![tactic(auto)]

ghost use Rattle.std.specs.Prelude.{◌≡◌};
ghost use Rattle.rules.specs.declared.answer.Answer.TheVariants.{Refused};

pub mod call;
pub mod event;

use rules::answer::{Answer, Answered, Refusal};
use tables::State;

// A refusal: the tables are handed back as they came.
fn refused(x: Refusal, s: State) -> Answered
    ensures { result ≡ record { answer = Refused x; state = s } }
{
    Answered {
        answer: Answer::Refused(x),
        state: s,
    }
}
