// What an event is answered inside, as the number that a host gets.
ghost use Rattle.std.specs.Prelude.{◌≡◌, ◌≤◌, IfOk};
ghost use Rattle.std.specs.Int.{w32};
ghost use Rattle.std.proofs.Common.{SFits};
ghost use Rattle.rules.specs.declared.answer.Answer.TheVariants.{Refused};
ghost use Rattle.rules.specs.Answers.{plain, asleep_number};
ghost use Rattle.vradomil.specs.Host.{host_number, number_of};

use rules::answer::{Errno, Refusal};

pub(crate) fn refusal(x: Errno) -> i32
    ensures { (result ≡ host_number (Refused (plain x))) × SFits w32 result }
{
    -(u32::from(x) as i32)
}

// A count, or the error number negated.
pub(crate) fn number(answer: Result<u32, Refusal>) -> i32
    requires { IfOk answer (λ n. n ≤ asleep_number) }
    ensures { (result ≡ number_of answer) × SFits w32 result }
{
    match answer {
        Ok(n) => n as i32,
        Err(x) => refusal(x.errno),
    }
}
