// Plans: what a call decides that no row refuses, on the view of its own process; each kernel carries a plan out on its own tables. It
// stands on views, commands and operations.
#![tactic(auto)]

ghost use Rattle.std.specs.Prelude.{◌≡◌, cond, ◌++◌, ◌+◌, ◌-◌, ◌≤◌, ◌<◌, min, take, ltb};
ghost use Rattle.std.specs.Bool.{then_some};
ghost use Rattle.lists.specs.Lists.{tabulate};
ghost use Rattle.tables.specs.Sizes.{processes, threads_per_process};
ghost use Rattle.rules.specs.WakeOp.{new_word, compares};
ghost use Rattle.views.specs.Views.{by_rank};
ghost use Rattle.plans.specs.Plans.{TakesFor, PlannedSleep, PlannedTake};

use arrivals::either;
use commands::{deadline_of, mask_of, second_cap, timeout_given, uses_by};
use operations::{compares, new_word};
use rules::event::Call;
use tables::{Sleep, State};
use views::{SmallView, Wanted, at_rank, candidates};

// Sleepers are taken, by number and in order, of which the first run and the next move to uaddr2, and a word may be written at uaddr2. The
// count is the answer then.
// Stays: an array with the lengths of its two parts, by the rule of fixed memory.
#[derive(Clone, Copy, Debug, PartialEq, Eq)]
pub struct Take {
    pub taken: [u16; State::THREADS_PER_PROCESS],
    pub released: usize,
    pub moved: usize,
    pub word: Option<u32>,
    pub count: u32,
}

// What a call does: the caller falls asleep, or sleepers are taken.
#[derive(Clone, Copy, Debug, PartialEq, Eq)]
pub enum Plan {
    Sleep(Sleep),
    Take(Take),
}

// The rank of the k-th who is taken: the first n by rank, then those from another rank on.
fn rank_for(k: usize, n: usize, from: usize) -> u16
    requires { (k < threads_per_process) × (from ≤ threads_per_process) }
    ensures { result ≡ cond (ltb k n) k (from + (k - n)) }
{
    if k < n {
        k as u16
    } else {
        (from + (k - n)) as u16
    }
}

// The first n threads of a process by rank, and m from another rank on.
// Stays: a number and what it is below, here and below, for Call.process is a number that a row judges (`no_thread`); a type of the numbers below
// `processes` would come from c.process in each kernel, and take_plan would take it beside c and ask that both are the same.
fn chosen(
    process: usize,
    rank: [u16; State::THREADS_PER_PROCESS],
    n: usize,
    from: usize,
    m: usize,
) -> [u16; State::THREADS_PER_PROCESS]
    requires { (process < processes) × ((n + m ≤ threads_per_process) × (from ≤ threads_per_process)) }
    ensures { take (n + m) result ≡ tabulate n (by_rank process rank) ++ tabulate m (λ k. by_rank process rank (from + k)) }
{
    let mut who = [0u16; State::THREADS_PER_PROCESS];
    for (k, t) in who[..n + m].iter_mut().enumerate() {
        let i = at_rank(rank, rank_for(k, n, from));
        *t = (State::THREADS_PER_PROCESS * process + i) as u16;
    }
    who
}

// Whom a call takes: the first run, the next move.
#[derive(Clone, Copy)]
struct Takes {
    taken: [u16; State::THREADS_PER_PROCESS],
    released: usize,
    moved: usize,
}

// Whom a call takes; holds: whether the comparison of a WAKE_OP holds. Of one word's sleepers the first val run, and the next move or, of a
// WAKE_OP, run too; of two words' the first of each run.
fn taken_by(v: SmallView, c: Call, holds: bool) -> Takes
    requires { c.process < processes }
    ensures { TakesFor c v.view holds result }
{
    let u = uses_by(c.op);
    let cap2 = either(u.second & (u.moves | holds), second_cap(c) as usize, 0);
    let two = u.second & !u.moves & holds & (c.uaddr != c.uaddr2);
    let wanted = Wanted {
        uaddr: c.uaddr,
        second: two.then_some(c.uaddr2),
        mask: u.mask.then_some(c.val3),
    };
    let o = candidates(v, wanted);
    let n = o.n.min(c.val as usize);
    let from = either(two, o.n, n);
    let rest = either(two, o.m, o.n - n);
    let m = rest.min(cap2);
    let away = either(u.moves, m, 0);
    Takes {
        taken: chosen(c.process as usize, o.rank, n, from, m),
        released: n + (m - away),
        moved: away,
    }
}

// What the operation of a WAKE_OP makes of a word, and whether its comparison with the old word holds.
// Stays: holds is no flag of word, which is written whether the comparison holds or not.
#[derive(Clone, Copy)]
struct Operated {
    holds: bool,
    word: u32,
}

// Of a call that acts; of any other val3 is no operation, and no branch is taken by it.
fn operate(acts: bool, val3: u32, old: u32) -> Option<Operated>
    ensures { result ≡ then_some acts (record { holds = compares val3 old; word = new_word val3 old }) }
{
    if !acts {
        return None;
    }
    Some(Operated {
        holds: compares(val3, old),
        word: new_word(val3, old),
    })
}

// The plan of a wait.
pub fn sleep_plan(c: Call, now: u64) -> Sleep
    ensures { PlannedSleep c now result }
{
    let u = uses_by(c.op);
    Sleep {
        uaddr: c.uaddr,
        bitset: mask_of(c, u.mask),
        deadline: timeout_given(c).then_some(deadline_of(c, u.mask, now)),
    }
}

// The plan of any other call; old: the word at uaddr2. The kernels call it for a process that exists.
pub fn take_plan(v: SmallView, c: Call, old: u32) -> Take
    requires { c.process < processes }
    ensures { PlannedTake c v.view old result }
{
    let u = uses_by(c.op);
    let operated = operate(u.second & !u.moves, c.val3, old);
    let holds = operated.is_some_and(|o| o.holds);
    let t = taken_by(v, c, holds);
    let counted = either(u.compare, t.moved, 0);
    let who = t.taken;
    Take {
        taken: who,
        released: t.released,
        moved: t.moved,
        word: operated.map(|o| o.word),
        count: (t.released + counted) as u32,
    }
}
