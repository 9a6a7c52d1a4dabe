// Calls: the plan of a call and what it leaves of the tables' bytes, and the entry point that tests first.
ghost use Rattle.std.specs.Prelude.{◌≡◌, true, [], ◌≤◌, ◌<◌, IfOk, is_some};
ghost use Rattle.tables.specs.Sizes.{processes, bytes_per_process};
ghost use Rattle.tables.specs.Tables.{world};
ghost use Rattle.rules.specs.declared.event.Event.TheVariants.{Call as CallEvent};
ghost use Rattle.rules.specs.Answers.{first, asleep_number};
ghost use Rattle.rules.specs.Commands.{command_of};
ghost use Rattle.rules.specs.Calls.{call_effect};
ghost use Rattle.rules.specs.Events.{own_rows};
ghost use Rattle.layout.specs.Layout.{state_at, words_at, words_bytes};
ghost use Rattle.layout.specs.Check.{Held};
ghost use Rattle.plans.specs.Plans.{carried, Planned};
ghost use Rattle.vradomil.specs.Host.{CallTold, Passed, PutWord, Leaves, Calls};

use crate::answer::number;
use crate::buffers::{WORDS_SIZE, judge_buffers, word_at};
use changes::{column_of, fall_asleep, take, view_at};
use commands::{thread_index, uses_by, word_index};
use layout::read::waits_at;
use layout::{CLOCK_AT, TABLES_SIZE, WORD_SIZE};
use numbers::{put_u32, u64_at};
use plans::{Plan, Take, sleep_plan, take_plan};
use rules::answer::Refusal;
use rules::event::Call;
use tables::THREADS;
use verdicts::verdict_on;

// To a host, "asleep" is this number.
const ASLEEP: u32 = 2147483647;

// The plan of a call. This and the functions below are called by perform, on a call that was not refused.
// Stays: plan_at to perform are on bytes what plan_of to perform of effects are by value, of which the line there says why no generic
// function is plainer. Passed relates the tables, of which some functions are lent to be written, to three parameters, so no type holds it.
fn plan_at(b: &[u8; TABLES_SIZE], words: &[u8; WORDS_SIZE], c: Call, place: [u8; THREADS]) -> Plan
    requires { Passed c b.now words.now place }
    ensures { Planned c (world (state_at b.now) (words_at words.now)) result }
{
    if uses_by(c.op).deadline {
        return Plan::Sleep(sleep_plan(c, u64_at(b, CLOCK_AT)));
    }
    let v = view_at(b, c.process as usize, place);
    let old = word_at(words, word_index(c.process, c.uaddr2));
    Plan::Take(take_plan(v, c, old))
}

// The word that a plan writes.
fn put_word(words: &mut [u8; WORDS_SIZE], c: Call, d: Take)
    requires { (c.process < processes) × (is_some d.word ≡ true → c.uaddr2 < bytes_per_process) }
    ensures { PutWord c d words.old words.new }
{
    if let Some(word) = d.word {
        put_u32(words, WORD_SIZE * word_index(c.process, c.uaddr2), word);
    }
}

// A plan carried out, and the number that the call is answered.
fn carry_out(
    b: &mut [u8; TABLES_SIZE],
    words: &mut [u8; WORDS_SIZE],
    c: Call,
    place: [u8; THREADS],
    d: Plan,
) -> u32
    requires { (Passed c b.old words.old place) × (Planned c (world (state_at b.old) (words_at words.old)) d) }
    ensures { (Leaves (carried c d (world (state_at b.old) (words_at words.old))) result b.new) × (words.new ≡ words_bytes (carried c d (world (state_at b.old) (words_at words.old))).world.words) }
{
    match d {
        Plan::Sleep(d) => {
            let t = thread_index(c.process, c.index);
            fall_asleep(b, t, d);
            ASLEEP
        }
        Plan::Take(d) => {
            put_word(words, c, d);
            let at = column_of(place, c.process as usize);
            take(
                b,
                at,
                &d.taken[..d.released],
                &d.taken[d.released..d.released + d.moved],
                c.uaddr2,
            );
            d.count
        }
    }
}

// What a call does that no row refuses. It is called by vradomil_call.
fn perform(
    b: &mut [u8; TABLES_SIZE],
    words: &mut [u8; WORDS_SIZE],
    c: Call,
    place: [u8; THREADS],
) -> u32
    requires { Passed c b.old words.old place }
    ensures { (Leaves (call_effect (command_of c.op) c (world (state_at b.old) (words_at words.old))) result b.new) × (words.new ≡ words_bytes (call_effect (command_of c.op) c (world (state_at b.old) (words_at words.old))).world.words) }
{
    let d = plan_at(b, words, c, place);
    carry_out(b, words, c, place, d)
}

// The table of answers from its third row on, on buffers that pass the first two.
fn judge(tables: &[u8; TABLES_SIZE], words: &[u8; WORDS_SIZE], c: Call) -> Result<(), Refusal>
    requires { Held tables.now }
    ensures { result ≡ first (own_rows (CallEvent c) (world (state_at tables.now) (words_at words.now))) }
{
    let waits = waits_at(tables, thread_index(c.process, c.index));
    let clock = u64_at(tables, CLOCK_AT);
    let word = word_at(words, word_index(c.process, c.uaddr));
    verdict_on(c, waits, clock, word)
}

// What a call is answered: the two parts of the table of answers, and what it does that no row refuses.
fn call(tables: &mut [u8], words: &mut [u8], c: Call) -> Result<u32, Refusal>
    ensures told { CallTold c tables.old words.old result tables.new words.new }
    ensures small { IfOk result (λ n. n ≤ asleep_number) }
{
    let place = judge_buffers(tables, words)?;
    let tables = tables.as_mut_array().unwrap();
    let words = words.as_mut_array().unwrap();
    judge(tables, words, c)?;
    Ok(perform(tables, words, c, place))
}

// A futex call.
pub fn vradomil_call(
    tables: &mut [u8],
    words: &mut [u8],
    process: u8,
    index: u8,
    op: u32,
    uaddr: u32,
    val: u32,
    flag: u8,
    timeout: u64,
    uaddr2: u32,
    val3: u32,
) -> i32
    ensures { Calls (record { process = process; index = index; op = op; uaddr = uaddr; val = val; flag = flag; timeout = timeout; uaddr2 = uaddr2; val3 = val3 }) tables.old words.old [] result tables.new words.new [] }
{
    let c = Call {
        process,
        index,
        op,
        uaddr,
        val,
        flag,
        timeout,
        uaddr2,
        val3,
    };
    number(call(tables, words, c))
}
