// Effects: what a call does that no row refuses, on the tables by value: its plan is made and carried out. It stands on plans.
#![tactic(auto)]

ghost use Rattle.std.specs.Prelude.{◌≡◌, true, ◌≤◌, ◌<◌, length, take, ltb, is_some};
ghost use Rattle.lists.specs.Lists.{all};
ghost use Rattle.tables.specs.Sizes.{processes, threads_per_process, threads, bytes_per_process, memory_words};
ghost use Rattle.tables.specs.Tables.{world, arrivals, tables_ok};
ghost use Rattle.tables.specs.Steps.{Places};
ghost use Rattle.rules.specs.declared.answer.Answer.TheVariants.{Count};
ghost use Rattle.rules.specs.Answers.{answered};
ghost use Rattle.rules.specs.Commands.{command_of};
ghost use Rattle.rules.specs.Calls.{call_effect};
ghost use Rattle.views.specs.Views.{Views};
ghost use Rattle.plans.specs.Ready.{Granted};
ghost use Rattle.plans.specs.Plans.{carried, Planned};
ghost use Rattle.effects.specs.Words.{PutWord};

use arrivals::places_in;
use commands::{thread_index, uses_by, word_index};
use plans::{Plan, Take, sleep_plan, take_plan};
use rules::answer::{Answer, Answered};
use rules::event::Call;
use std::array;
use tables::{LastAnswer, State, THREADS};
use views::{SmallView, View};

// This many, with these tables.
pub fn counted(n: u32, s: State) -> Answered
    ensures { result ≡ record { answer = Count n; state = s } }
{
    Answered {
        answer: Answer::Count(n),
        state: s,
    }
}

// What a call reads of its own process; place says where each thread stands in the arrival list. This and the functions below are called
// by perform, on tables that keep the rules.
fn view_of(s: State, process: usize, place: [u8; THREADS]) -> SmallView
    requires { (tables_ok s ≡ true) × ((process < processes) × Places place (arrivals s)) }
    ensures { Views process s result.view }
{
    let base = State::THREADS_PER_PROCESS * process;
    let view = View {
        place: array::from_fn(|i| u16::from(place[base + i])),
        uaddr: array::from_fn(|i| s.threads[base + i].uaddr),
        bitset: array::from_fn(|i| s.threads[base + i].bitset),
        priority: array::from_fn(|i| u16::from(s.threads[base + i].priority)),
    };
    SmallView { view }
}

// The plan of a call.
// Stays: plan_of, put_word, carry_out and perform stand in vradomil/src/call.rt once more, on bytes. What they decide is shared already
// (sleep_plan, take_plan); one generic function over both would take a trait with a method and a ghost member for each line of theirs (clock,
// view, word, put, fall_asleep, take) and two impls of it, and be longer than the two. `Granted c s words` and `Places place (arrivals s)`
// speak of three parameters and of two; a type that held them with a ghost field would be made once, by perform, and hold words that
// carry_out is lent by `&mut`.
fn plan_of(s: State, words: &[u32], c: Call, place: [u8; THREADS]) -> Plan
    requires { (Granted c s words.now) × Places place (arrivals s) }
    ensures { Planned c (world s words.now) result }
{
    let u = uses_by(c.op);
    if u.deadline {
        return Plan::Sleep(sleep_plan(c, s.clock));
    }
    let v = view_of(s, c.process as usize, place);
    let old = words[word_index(c.process, c.uaddr2)];
    Plan::Take(take_plan(v, c, old))
}

// The word that a plan writes.
fn put_word(words: &mut [u32], c: Call, d: Take)
    requires { (c.process < processes) × ((length words.old ≡ memory_words) × (is_some d.word ≡ true → c.uaddr2 < bytes_per_process)) }
    ensures { PutWord c d words.old words.new }
{
    if let Some(word) = d.word {
        words[word_index(c.process, c.uaddr2)] = word;
    }
}

// Threads of a process, as the first entries of a list.
fn entries(ts: &[u16]) -> [u8; THREADS]
    requires { (length ts.now ≤ threads_per_process) × (all (λ t. ltb t threads) ts.now ≡ true) }
    ensures { take (length ts.now) result ≡ ts.now }
{
    let mut list = [State::NO_ENTRY; THREADS];
    for (i, &t) in ts.iter().enumerate() {
        list[i] = t as u8;
    }
    list
}

// A plan carried out.
fn carry_out(s: State, words: &mut [u32], c: Call, place: [u8; THREADS], d: Plan) -> Answered
    requires { (Granted c s words.old) × (Places place (arrivals s) × Planned c (world s words.old) d) }
    ensures { (result ≡ answered (carried c d (world s words.old))) × (words.new ≡ (carried c d (world s words.old)).world.words) }
{
    match d {
        Plan::Sleep(d) => {
            let t = thread_index(c.process, c.index);
            let state = s.fall_asleep(t, d);
            Answered {
                answer: Answer::Asleep,
                state,
            }
        }
        Plan::Take(d) => {
            put_word(words, c, d);
            let taken = entries(&d.taken[..d.released + d.moved]);
            let next = s.take(
                place,
                &taken[..d.released],
                LastAnswer::Woken,
                &taken[d.released..d.released + d.moved],
                c.uaddr2,
            );
            counted(d.count, next)
        }
    }
}

// What a call does that no row refuses. The kernel calls it after the table of answers.
pub fn perform(s: State, words: &mut [u32], c: Call) -> Answered
    requires { Granted c s words.old }
    ensures { (result ≡ answered (call_effect (command_of c.op) c (world s words.old))) × (words.new ≡ (call_effect (command_of c.op) c (world s words.old)).world.words) }
{
    let place = places_in(s.arrivals()).unwrap();
    let d = plan_of(s, words, c, place);
    carry_out(s, words, c, place, d)
}
