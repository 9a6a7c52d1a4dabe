// Reports: what an event tells beside its number, in bytes that the host lends for it; and the entry points that give them.
// Stays: each beside the one that has no report, with the parameters that it has, by the C interface.
ghost use Rattle.std.specs.Prelude.{◌≡◌, cond, ◌∷◌, [], ◌≤◌, None, IfOk};
ghost use Rattle.std.specs.Int.{w32};
ghost use Rattle.std.proofs.Common.{SFits};
ghost use Rattle.rules.specs.declared.event.Event.TheVariants.{Store, Clock, Interrupt, SetPriority};
ghost use Rattle.rules.specs.Answers.{reason_number, asleep_number, is_minus22, reason_among};
ghost use Rattle.rules.specs.Commands.{command_of};
ghost use Rattle.rules.specs.Calls.{argument_rows};
ghost use Rattle.vradomil.specs.Host.{laid_over, number_of, reason_in, Calls, ChangesWords, ChangesTables};

use crate::answer::number;
use crate::call::vradomil_call;
use crate::event::{interrupt, set_clock, set_priority, store};
use rules::answer::{Reason, Refusal};
use rules::event::Call;
use verdicts::wrong_argument;

const EINVAL: i32 = -22;

// The reason of an answer, where it is a refusal that has one.
fn reason_of(answer: Result<u32, Refusal>) -> Option<Reason>
    ensures { result ≡ reason_in answer }
{
    match answer {
        Ok(_) => None,
        Err(x) => x.reason,
    }
}

// The reason beside the number of a call, whose arguments are looked at again where it is -22.
// Stays: with reported, as below, call has a second caller, and a call without a report takes 5 to 7 % more instructions (bench/count).
fn reason_of_call(number: i32, c: Call) -> Option<Reason>
    ensures { result ≡ cond (is_minus22 number) (reason_among (argument_rows (command_of c.op) c)) None }
{
    if number == EINVAL {
        wrong_argument(c)
    } else {
        None
    }
}

// As much of the report as the host has room for.
fn put_report(report: &mut [u8], reason: Option<Reason>)
    ensures { report.new ≡ laid_over (reason_number reason ∷ []) report.old }
{
    if let [first, ..] = report {
        *first = reason.map_or(0, u8::from);
    }
}

// The number of an answer, with its report.
fn reported(answer: Result<u32, Refusal>, report: &mut [u8]) -> i32
    requires { IfOk answer (λ n. n ≤ asleep_number) }
    ensures number { (result ≡ number_of answer) × SFits w32 result }
    ensures report { report.new ≡ laid_over (reason_number (reason_in answer) ∷ []) report.old }
{
    put_report(report, reason_of(answer));
    number(answer)
}

// A futex call, with its report.
pub fn vradomil_call_report(
    tables: &mut [u8],
    words: &mut [u8],
    process: u8,
    index: u8,
    op: u32,
    uaddr: u32,
    val: u32,
    flag: u8,
    timeout: u64,
    uaddr2: u32,
    val3: u32,
    report: &mut [u8],
) -> i32
    ensures { Calls (record { process = process; index = index; op = op; uaddr = uaddr; val = val; flag = flag; timeout = timeout; uaddr2 = uaddr2; val3 = val3 }) tables.old words.old report.old result tables.new words.new report.new }
{
    let c = Call {
        process,
        index,
        op,
        uaddr,
        val,
        flag,
        timeout,
        uaddr2,
        val3,
    };
    let number = vradomil_call(
        tables, words, process, index, op, uaddr, val, flag, timeout, uaddr2, val3,
    );
    put_report(report, reason_of_call(number, c));
    number
}

// A store, with its report.
pub fn vradomil_store_report(
    tables: &[u8],
    words: &mut [u8],
    process: u8,
    address: u32,
    value: u32,
    report: &mut [u8],
) -> i32
    ensures { ChangesWords (Store process address value) tables.now words.old report.old result words.new report.new }
{
    reported(store(tables, words, process, address, value), report)
}

// A clock event, with its report.
pub fn vradomil_clock_report(tables: &mut [u8], words: &[u8], time: u64, report: &mut [u8]) -> i32
    ensures { ChangesTables (Clock time) tables.old words.now report.old result tables.new report.new }
{
    reported(set_clock(tables, words, time), report)
}

// An interrupt, with its report.
pub fn vradomil_interrupt_report(
    tables: &mut [u8],
    words: &[u8],
    process: u8,
    index: u8,
    report: &mut [u8],
) -> i32
    ensures { ChangesTables (Interrupt process index) tables.old words.now report.old result tables.new report.new }
{
    reported(interrupt(tables, words, process, index), report)
}

// A priority that is set, with its report.
pub fn vradomil_set_priority_report(
    tables: &mut [u8],
    words: &[u8],
    process: u8,
    index: u8,
    priority: u8,
    report: &mut [u8],
) -> i32
    ensures { ChangesTables (SetPriority process index priority) tables.old words.now report.old result tables.new report.new }
{
    reported(
        set_priority(tables, words, process, index, priority),
        report,
    )
}
