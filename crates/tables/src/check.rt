// The table rules, in one pass over the list and one over the records.
ghost use Rattle.std.specs.Prelude.{◌≡◌, ◌&&◌, eqb};
ghost use Rattle.std.specs.Bool.{beq};
ghost use Rattle.lists.specs.Lists.{every_below, count_below};
ghost use Rattle.tables.specs.Sizes.{threads};
ghost use Rattle.tables.specs.Tables.{thread_of, sleep_ok, record_ok, records_ok, tables_ok};
ghost use Rattle.tables.specs.Steps.{placed};

use crate::{MAX_PRIORITY, PROCESS_BYTES, State, THREADS, Thread, WORD_BYTES};
use arrivals::{places_in, tail_ok};

fn sleep_ok(t: Thread, now: u64) -> bool
    ensures { result ≡ sleep_ok now t }
{
    if t.waiting {
        let due = if t.timed {
            now < t.deadline
        } else {
            t.deadline == 0
        };
        t.uaddr % WORD_BYTES == 0 && t.uaddr < PROCESS_BYTES && t.bitset != 0 && due
    } else {
        t.uaddr == 0 && t.bitset == 0 && !t.timed && t.deadline == 0
    }
}

#[tactic(auto, unfolding(crate::specs::Tables::record_ok))]
fn record_ok(t: Thread, now: u64) -> bool
    ensures { result ≡ record_ok now t }
{
    sleep_ok(t, now) && t.priority <= MAX_PRIORITY
}

// The records keep their rules, those wait that have a place in the list, and as many as the list counts.
fn records_ok(s: State, place: [u8; THREADS]) -> bool
    ensures { result ≡ (every_below threads (λ t. beq (placed place t) (thread_of s t).waiting) && records_ok s && eqb (count_below threads (λ t. (thread_of s t).waiting)) s.count) }
{
    s.threads
        .iter()
        .zip(&place)
        .all(|(t, &p)| record_ok(*t, s.clock) && (p != 0) == t.waiting)
        && s.threads.iter().filter(|t| t.waiting).count() == s.count
}

// The tables keep the table rules.
pub fn tables_ok(s: State) -> bool
    ensures { result ≡ tables_ok s }
{
    if THREADS < s.count {
        return false;
    }
    let Some(place) = places_in(s.arrivals()) else {
        return false;
    };
    tail_ok(&s.list[s.count..]) && records_ok(s, place)
}
