// Verdicts: the table of answers, every refusal of a call and of a set priority, on the few numbers that it reads. It stands on commands
// and operations.
#![tactic(auto)]

ghost use Rattle.std.specs.Prelude.{◌≡◌, cond, Ok, Err};
ghost use Rattle.rules.specs.declared.answer.Errno.TheVariants.{EINVAL};
ghost use Rattle.rules.specs.Answers.{◌because◌, plain, first, reason_among};
ghost use Rattle.rules.specs.Commands.{command_of};
ghost use Rattle.rules.specs.Calls.{no_thread, argument_rows, bad_address, differs, late, behind_rows, call_rows};
ghost use Rattle.rules.specs.Events.{store_rows, priority_rows};

use commands::{deadline_of, not_implemented, second_cap, timeout_given, uses_by};
use operations::undefined_op;
use rules::answer::{Errno, Reason, Refusal};
use rules::event::Call;
use tables::{MAX_PRIORITY, PROCESS_BYTES, PROCESSES, State, WORD_BYTES};

const MAX_CAP: u32 = 2147483647;

// An error that has no reason beside it.
fn refused(errno: Errno) -> Result<(), Refusal>
    ensures { result ≡ Err (plain errno) }
{
    Err(Refusal {
        errno,
        reason: None,
    })
}

// -22, with its reason.
fn refused_for(reason: Reason) -> Result<(), Refusal>
    ensures { result ≡ Err (EINVAL because reason) }
{
    Err(Refusal {
        errno: Errno::EINVAL,
        reason: Some(reason),
    })
}

// A row of the table: with ? behind it, the rows below answer where it does not apply.
pub fn row(errno: Errno, applies: bool) -> Result<(), Refusal>
    ensures { result ≡ cond applies (Err (plain errno)) (Ok tt) }
{
    if applies { refused(errno) } else { Ok(()) }
}

// A row for -22, with its reason.
// Stays: no one generic function with row, which would need an .into() at each call or a clause that names a trait's ghost member.
pub fn invalid(reason: Reason, applies: bool) -> Result<(), Refusal>
    ensures { result ≡ cond applies (Err (EINVAL because reason)) (Ok tt) }
{
    if applies { refused_for(reason) } else { Ok(()) }
}

pub fn no_thread(process: u8, index: u8) -> bool
    ensures { result ≡ no_thread process index }
{
    (PROCESSES <= process as usize) | (State::THREADS_PER_PROCESS <= index as usize)
}

// What is wrong with a call's arguments: the reason of the first row for -22 that applies.
#[tactic(auto, unfolding(rules::specs::Calls::argument_rows))]
pub fn wrong_argument(c: Call) -> Option<Reason>
    ensures { result ≡ reason_among (argument_rows (command_of c.op) c) }
{
    let u = uses_by(c.op);
    if u.cap & (MAX_CAP < c.val) {
        return Some(Reason::FirstCap);
    }
    if u.second & (MAX_CAP < second_cap(c)) {
        return Some(Reason::SecondCap);
    }
    if u.mask & (c.val3 == 0) {
        return Some(Reason::MaskZero);
    }
    if c.uaddr % WORD_BYTES != 0 {
        return Some(Reason::UaddrUnaligned);
    }
    if u.second & (c.uaddr2 % WORD_BYTES != 0) {
        return Some(Reason::Uaddr2Unaligned);
    }
    if u.moves & (c.uaddr == c.uaddr2) {
        return Some(Reason::SameAddress);
    }
    None
}

#[tactic(auto, unfolding(rules::specs::Calls::bad_address))]
fn bad_address(c: Call) -> bool
    ensures { result ≡ bad_address (command_of c.op) c }
{
    let u = uses_by(c.op);
    (PROCESS_BYTES <= c.uaddr) | (u.second & (PROCESS_BYTES <= c.uaddr2))
}

fn differs(c: Call, word: u32) -> bool
    ensures { result ≡ differs (command_of c.op) c word }
{
    let u = uses_by(c.op);
    let expected = if u.deadline { c.val } else { c.val3 };
    u.compare & (word != expected)
}

fn late(c: Call, now: u64) -> bool
    ensures { result ≡ late (command_of c.op) c now }
{
    let u = uses_by(c.op);
    u.deadline & timeout_given(c) & (deadline_of(c, u.mask, now) <= now)
}

// The verdict by the rows behind those for -22.
fn verdict_behind(c: Call, now: u64, word: u32) -> Result<(), Refusal>
    ensures { result ≡ first (behind_rows (command_of c.op) c now word) }
{
    let u = uses_by(c.op);
    row(Errno::EFAULT, bad_address(c))?;
    row(Errno::ENOSYS, u.second & !u.moves & undefined_op(c.val3))?;
    row(Errno::EAGAIN, differs(c, word))?;
    row(Errno::ETIMEDOUT, late(c, now))
}

// The verdict on a call whose memory and tables are sound, by the table's rows from the third on: the first that applies answers, and no
// later one is tested.
#[tactic(auto, using(crate::proofs::Table::arguments_behind), unfolding(rules::specs::Calls::rows_in))]
pub fn verdict_on(c: Call, waits: bool, now: u64, word: u32) -> Result<(), Refusal>
    ensures { result ≡ first (call_rows c waits now word) }
{
    row(Errno::ESRCH, no_thread(c.process, c.index))?;
    row(Errno::EBUSY, waits)?;
    row(Errno::ENOSYS, not_implemented(c.op))?;
    if let Some(reason) = wrong_argument(c) {
        return refused_for(reason);
    }
    verdict_behind(c, now, word)
}

// The verdict on a store, memory and tables being sound.
pub fn verdict_on_store(process: u8, address: u32) -> Result<(), Refusal>
    ensures { result ≡ first (store_rows process address) }
{
    row(Errno::ESRCH, PROCESSES <= process as usize)?;
    invalid(Reason::UaddrUnaligned, address % WORD_BYTES != 0)?;
    row(Errno::EFAULT, PROCESS_BYTES <= address)
}

// The verdict on a priority that is to be set, memory and tables being sound.
pub fn verdict_on_priority(process: u8, index: u8, priority: u8) -> Result<(), Refusal>
    ensures { result ≡ first (priority_rows process index priority) }
{
    row(Errno::ESRCH, no_thread(process, index))?;
    invalid(Reason::PriorityHigh, MAX_PRIORITY < priority)
}
