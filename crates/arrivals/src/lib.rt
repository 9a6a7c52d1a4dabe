// Arrivals: the arrival list, where each thread stands in it, entries taken out of it and joined to it. It stands on lists.
#![tactic(auto)]

ghost use Rattle.std.specs.Prelude.{◌≡◌, cond, length, ◌∷◌, [], ◌++◌, ◌+◌, ◌-◌, ◌%◌, ◌≤◌, ◌<◌, take, drop, eqb, ltb};
ghost use Rattle.lists.specs.Lists.{all, bit, without, pad_to};
ghost use Rattle.arrivals.specs.Sizes.{threads, no_entry};
ghost use Rattle.arrivals.specs.Arrivals.{Numbers, flagged, split_of, PlacedIn, MovedUp, Listed};

pub const PROCESSES: usize = 8;

pub const THREADS_PER_PROCESS: usize = 8;

pub const THREADS: usize = PROCESSES * THREADS_PER_PROCESS;

// The entry of the arrival list that names no thread.
pub const NO_ENTRY: u8 = 255;

// An entry as an index; an entry of the list is a thread number, and is left as it is.
pub fn index_of(e: u8) -> usize
    ensures { result ≡ e % threads }
{
    (e as usize) % THREADS
}

// One value or the other: a leaf, so that a loop has no branch on what the tables hold.
pub fn either<T: Copy>(test: bool, a: T, b: T) -> T
    ensures { result ≡ cond test a b }
{
    if test { a } else { b }
}

// Where each thread stands in a list, from 1, and 0 where it does not; None where the list names something that is no thread. The table
// check by value calls it, after its test of the count, and a call that has only the tables.
pub fn places_in(list: &[u8]) -> Option<[u8; THREADS]>
    requires { length list.now ≤ threads }
    ensures { PlacedIn list.now result }
{
    let mut low = true;
    let mut place = [0; THREADS];
    for (i, &e) in list.iter().enumerate() {
        low &= (e as usize) < THREADS;
        place[index_of(e)] = i as u8 + 1;
    }
    low.then_some(place)
}

// The entries past the count name no thread.
// Stays: layout has its own over the bytes, and the figures of speed beside it.
pub fn tail_ok(tail: &[u8]) -> bool
    ensures { result ≡ all (λ e. eqb e no_entry) tail.now }
{
    tail.iter().all(|&e| e == NO_ENTRY)
}

// The entry at a place, from 1, leaves the list: those behind it move up, and the last names no thread.
fn out_at(list: &mut [u8; THREADS], place: u8)
    requires { (1 ≤ place) × (place ≤ threads) }
    ensures { list.new ≡ take (place - 1) list.old ++ (drop place list.old ++ (no_entry ∷ [])) }
{
    let next = usize::from(place);
    list.copy_within(next.., next - 1);
    list[THREADS - 1] = NO_ENTRY;
}

// The places once the entry at one of them is taken out.
fn moved_up(place: &mut [u8; THREADS], out: u8)
    ensures { MovedUp place.old out place.new }
{
    for p in place.iter_mut() {
        if out < *p {
            *p -= 1;
        }
    }
}

// The list with others written behind its first count.
// Stays: a list beside its count, here, in relisted and in Split, is fixed memory without a heap, and State's form: with_arrivals
// (tables/specs/Tables.antt) pads the list to 64 entries.
fn joined(mut list: [u8; THREADS], count: usize, others: &[u8]) -> [u8; THREADS]
    requires { count + length others.now ≤ threads }
    ensures { result ≡ take count list ++ (others.now ++ drop (count + length others.now) list) }
{
    list[count..count + others.len()].copy_from_slice(others);
    list
}

// The list once the threads of both lists are taken out of it, by where each stands, and those that move have joined its end in their order.
pub fn relisted(
    mut list: [u8; THREADS],
    count: usize,
    mut place: [u8; THREADS],
    ended: &[u8],
    moved: &[u8],
) -> [u8; THREADS]
    requires { Listed list count place (ended.now ++ moved.now) (length ended.now + length moved.now) }
    ensures { result ≡ pad_to threads no_entry (without (ended.now ++ moved.now) (take count list) ++ moved.now) }
{
    for &t in ended.iter().chain(moved) {
        let out = place[index_of(t)];
        out_at(&mut list, out);
        moved_up(&mut place, out);
    }
    joined(list, count - (ended.len() + moved.len()), moved)
}

// A list in two: the entries that pass a test, and the others, each in their order.
#[derive(Clone, Copy, Debug, PartialEq, Eq)]
pub struct Split {
    pub left: [u8; THREADS],
    pub count: usize,
    pub taken: [u8; THREADS],
    pub n: usize,
}

// The threads of a list whose flag is set, and the others. A clock event calls it, on a list of thread numbers.
pub fn split_by(list: &[u8], flags: [bool; THREADS]) -> Split
    requires { Numbers list.now (length list.now) }
    ensures { result ≡ split_of (flagged flags) list.now }
{
    let mut split = Split {
        left: [NO_ENTRY; THREADS],
        count: 0,
        taken: [NO_ENTRY; THREADS],
        n: 0,
    };
    for &e in list {
        if flags[index_of(e)] {
            split.taken[split.n] = e;
            split.n += 1;
        } else {
            split.left[split.count] = e;
            split.count += 1;
        }
    }
    split
}
