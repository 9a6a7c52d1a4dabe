// Changes: what a call reads of its process, and the changes of the tables, on their bytes where they lie. It stands on layout and views.
#![tactic(auto)]

ghost use Rattle.std.specs.Prelude.{◌≡◌, false, not, [], ◌∷◌, ◌++◌, ◌+◌, ◌-◌, ◌%◌, ◌≤◌, ◌<◌, length, take, drop, is_some, unwrap_or};
ghost use Rattle.lists.specs.Lists.{all};
ghost use Rattle.lists.specs.LittleEndian.{number_at};
ghost use Rattle.tables.specs.declared.LastAnswer.TheVariants.{Woken, TimedOut};
ghost use Rattle.tables.specs.declared.Change.TheVariants.{End};
ghost use Rattle.tables.specs.Sizes.{processes, threads, no_entry};
ghost use Rattle.tables.specs.Tables.{thread_of, arrivals, change, with_threads, stored_deadline, with_sleep, ended, asleep_at, fall_asleep, end_sleeps, move_sleeps, set_priority};
ghost use Rattle.tables.specs.Steps.{Numbers, Places, changed_by, end_flagged};
ghost use Rattle.views.specs.Views.{Views};
ghost use Rattle.layout.specs.Layout.{time_bytes, count_at, thread_at, state_at, tables_bytes};
ghost use Rattle.layout.specs.Check.{Held};
ghost use Rattle.changes.specs.Change.{at_thread, on_list, Writes, has_come, is_due, Sifted, StandsAt, Lowered, MovesOne, ColumnOf, Leave};

use arrivals::{either, index_of};
use layout::{
    BITSET_AT, COUNT_AT, DEADLINE_AT, LAST_AT, LIST_AT, PRIORITY_AT, TABLES_SIZE, TIME_SIZE,
    TIMED_AT, UADDR_AT, WAITING_AT, WORD_SIZE,
};
use numbers::{put_u32, put_u64, u32_at, u64_at};
use std::array;
use tables::{LastAnswer, Sleep, State, THREADS};
use views::{SmallView, View};

// Of the places of all threads those of a process.
pub fn column_of(place: [u8; THREADS], process: usize) -> [u16; State::THREADS_PER_PROCESS]
    requires { process < processes }
    ensures { ColumnOf process place result }
{
    let base = State::THREADS_PER_PROCESS * process;
    array::from_fn(|i| u16::from(place[base + i]))
}

// What a call reads of its own process; place says where each thread stands in the arrival list. It is called on tables that keep the
// rules.
// Stays: `Held`, here and in six functions below, is no invariant of a type: take and fall_asleep promise what they leave for any address, so
// that it need not be `Held`, and a `&mut` of such a type could not be handed back without a `requires` more. `Places` and `Leave` speak of two
// parameters, of which one is lent by `&mut` (end_one, take): no ghost field stands beside both.
pub fn view_at(b: &[u8; TABLES_SIZE], process: usize, place: [u8; THREADS]) -> SmallView
    requires { Held b.now × ((process < processes) × Places place (arrivals (state_at b.now))) }
    ensures { Views process (state_at b.now) result.view }
{
    let base = State::THREADS_PER_PROCESS * process;
    let view = View {
        place: column_of(place, process),
        uaddr: array::from_fn(|i| u32_at(b, UADDR_AT + WORD_SIZE * (base + i))),
        bitset: array::from_fn(|i| u32_at(b, BITSET_AT + WORD_SIZE * (base + i))),
        priority: array::from_fn(|i| u16::from(b[PRIORITY_AT + base + i])),
    };
    SmallView { view }
}

// Another sleep of a thread: only the columns that hold it are written.
// Stays: `waiting` beside the sleep, as in tables' with_sleep.
fn put_sleep(b: &mut [u8; TABLES_SIZE], i: usize, waiting: bool, sleep: Sleep)
    requires { i < threads }
    ensures { Writes (at_thread i (with_sleep waiting sleep.uaddr sleep.bitset (is_some sleep.deadline) (stored_deadline (is_some sleep.deadline) (unwrap_or sleep.deadline 0)))) b.old b.new }
{
    b[WAITING_AT + i] = u8::from(waiting);
    b[TIMED_AT + i] = u8::from(sleep.deadline.is_some());
    put_u32(b, UADDR_AT + WORD_SIZE * i, sleep.uaddr);
    put_u32(b, BITSET_AT + WORD_SIZE * i, sleep.bitset);
    put_u64(b, DEADLINE_AT + TIME_SIZE * i, sleep.stored_deadline());
}

// The sleep of a thread is over, with the answer.
fn end_sleep(b: &mut [u8; TABLES_SIZE], i: usize, last: LastAnswer)
    requires { i < threads }
    ensures { Writes (at_thread i (ended last)) b.old b.new }
{
    put_sleep(b, i, false, Sleep::NONE);
    b[LAST_AT + i] = last as u8;
}

// The base priority of a thread. The caller has asked whether the rule allows it: this function does not.
// Stays: this, take and fall_asleep stand in tables by value. Both promise the same definition (set_priority, move_sleeps, fall_asleep of
// tables/specs/Tables.antt), of a State and of the bytes where they lie; a trait over both would have a method for each field and list entry that
// they read or write, and be longer than the three.
pub fn set_priority(b: &mut [u8; TABLES_SIZE], t: usize, priority: u8)
    requires { t < threads }
    ensures { Writes (set_priority priority t) b.old b.new }
{
    b[PRIORITY_AT + t] = priority;
}

// The threads run, with the answer.
fn end_all(b: &mut [u8; TABLES_SIZE], ts: &[u8], last: LastAnswer)
    requires { Numbers ts.now (length ts.now) }
    ensures { Writes (λ s. with_threads (change (changed_by (End last)) ts.now s.threads) s) b.old b.new }
{
    for &t in ts {
        end_sleep(b, index_of(t), last);
    }
}

// Whether the deadline of a listed thread has come, on tables that keep the rules: there 0 is stored where there is none.
fn is_due(b: &[u8; TABLES_SIZE], e: u8, time: u64) -> bool
    ensures { result ≡ has_come time (thread_at b.now (e % threads)).deadline }
{
    let d = u64_at(b, DEADLINE_AT + TIME_SIZE * index_of(e));
    (d != 0) & (d <= time)
}

// Whether anybody's has.
fn some_due(b: &[u8; TABLES_SIZE], time: u64) -> bool
    requires { Held b.now }
    ensures { result ≡ not (all (λ t. not (is_due time (state_at b.now) t)) (arrivals (state_at b.now))) }
{
    let count = u64_at(b, COUNT_AT) as usize;
    b[LIST_AT..LIST_AT + count]
        .iter()
        .any(|&e| is_due(b, e, time))
}

// The list where it lies, without those whose deadline has come, who are written into who; how many they are. The filler is laid over each
// entry, and one that stays is laid down again behind those that stay before it.
fn sift(b: &mut [u8; TABLES_SIZE], time: u64, who: &mut [u8; THREADS]) -> usize
    requires { Held b.old }
    ensures { Sifted (is_due time (state_at b.old)) (state_at b.old) who.new result b.new }
{
    let count = u64_at(b, COUNT_AT) as usize;
    let mut n = 0;
    let mut w = 0;
    for i in 0..count {
        let e = b[LIST_AT + i];
        let hit = is_due(b, e, time);
        b[LIST_AT + i] = State::NO_ENTRY;
        b[LIST_AT + w] = either(hit, State::NO_ENTRY, e);
        who[n] = e;
        n += usize::from(hit);
        w += usize::from(!hit);
    }
    put_u64(b, COUNT_AT, w as u64);
    n
}

// The sleepers whose deadline has come end their sleep; how many. A clock event calls it, on tables that keep the rules. Where there are
// none, no byte is written.
pub fn end_due(b: &mut [u8; TABLES_SIZE], time: u64) -> u32
    requires { Held b.old }
    ensures { (result ≡ (end_flagged TimedOut (is_due time (state_at b.old)) (state_at b.old)).n) × (b.new ≡ tables_bytes (end_flagged TimedOut (is_due time (state_at b.old)) (state_at b.old)).state) }
{
    if !some_due(b, time) {
        return 0;
    }
    let mut who = [State::NO_ENTRY; THREADS];
    let n = sift(b, time, &mut who);
    end_all(b, &who[..n], LastAnswer::TimedOut);
    n as u32
}

// Takes the entry at a place, from 1, out of the arrival list where it lies: those behind it move up.
fn take_out(b: &mut [u8; TABLES_SIZE], place: u8)
    requires { (1 ≤ place) × (place ≤ threads) }
    ensures { Writes (on_list (λ l. take (place - 1) l ++ (drop place l ++ (no_entry ∷ [])))) b.old b.new }
{
    // Stays: `copy_within` costs up to 15 % more instructions of a call (bench/count, "wake of all at a word", 32 sleepers, 7 there). All
    // entries are gone through, so that the loop is the same whatever the place; the last turn reads the byte behind the list, over which
    // the filler is laid.
    for i in 0..THREADS {
        let at = LIST_AT + i;
        b[at] = either(i as u8 + 1 < place, b[at], b[at + 1]);
    }
    b[LIST_AT + THREADS - 1] = State::NO_ENTRY;
}

// The places of a process once the entry at one of them is taken out.
// Stays: arrivals has the same map over bytes. One function for both would take its number by a trait with `<`, `- 1` and what they mean, and
// be longer than the two.
fn lowered(place: [u16; State::THREADS_PER_PROCESS], out: u16) -> [u16; State::THREADS_PER_PROCESS]
    ensures { Lowered place out result }
{
    place.map(|p| if out < p { p - 1 } else { p })
}

// A sleeper that stands at a place of the list runs, with the answer. This and the functions below that are public are called on tables
// that keep the rules.
pub fn end_one(b: &mut [u8; TABLES_SIZE], t: usize, place: u8, last: LastAnswer)
    requires { Held b.old × StandsAt place t (arrivals (state_at b.old)) }
    ensures { b.new ≡ tables_bytes (end_sleeps last (t ∷ []) (state_at b.old)) }
{
    let count = u64_at(b, COUNT_AT);
    take_out(b, place);
    end_sleep(b, t, last);
    put_u64(b, COUNT_AT, count - 1);
}

// A sleeper that stands at a place of the list moves to the address and to the end of the list. The address may be any, so that of the
// tables only the rules of the list are asked.
fn move_one(b: &mut [u8; TABLES_SIZE], t: usize, place: u8, uaddr: u32)
    requires { (t < threads) × ((1 ≤ place) × ((place ≤ number_at time_bytes count_at b.old) × (number_at time_bytes count_at b.old ≤ threads))) }
    ensures { MovesOne uaddr t place b.old b.new }
{
    let count = u64_at(b, COUNT_AT) as usize;
    take_out(b, place);
    put_u32(b, UADDR_AT + WORD_SIZE * t, uaddr);
    b[LIST_AT + count - 1] = t as u8;
}

// Some threads of a process end their sleep as woken, others move to the address and to the end of the list, one after the other; place
// says where each thread of the process stands in it. Of nobody, no byte is written.
pub fn take(
    b: &mut [u8; TABLES_SIZE],
    place: [u16; State::THREADS_PER_PROCESS],
    ended: &[u16],
    moved: &[u16],
    uaddr: u32,
)
    requires { Held b.old × Leave place (ended.now ++ moved.now) (length ended.now + length moved.now) (state_at b.old) }
    ensures { b.new ≡ tables_bytes (move_sleeps uaddr moved.now (end_sleeps Woken ended.now (state_at b.old))) }
{
    let mut at = place;
    for &t in ended {
        let x = usize::from(t);
        let out = at[x % State::THREADS_PER_PROCESS];
        end_one(b, x, out as u8, LastAnswer::Woken);
        at = lowered(at, out);
    }
    for &t in moved {
        let x = usize::from(t);
        let out = at[x % State::THREADS_PER_PROCESS];
        move_one(b, x, out as u8, uaddr);
        at = lowered(at, out);
    }
}

// A running thread sleeps, and joins the end of the list, where there is room, since it is not there yet. It is called for a caller that
// is not waiting.
pub fn fall_asleep(b: &mut [u8; TABLES_SIZE], t: usize, sleep: Sleep)
    requires { Held b.old × ((t < threads) × ((thread_of (state_at b.old) t).waiting ≡ false)) }
    ensures { b.new ≡ tables_bytes (fall_asleep (asleep_at sleep.uaddr sleep.bitset (is_some sleep.deadline) (unwrap_or sleep.deadline 0)) t (state_at b.old)) }
{
    let n = u64_at(b, COUNT_AT) as usize;
    put_sleep(b, t, true, sleep);
    b[LIST_AT + n] = t as u8;
    put_u64(b, COUNT_AT, (n + 1) as u64);
}
