// What a script prints: answers and tables.
use rules::answer::{Answer, Refusal};
use std::io;
use tables::{State, Thread};

pub(crate) fn answer(rt: &impl Print, answer: Answer) -> io::Result<()> {
    match answer {
        Answer::Asleep => println!(rt; "asleep"),
        Answer::Count(n) => println!(rt; "{n}"),
        Answer::Refused(refusal) => refused(rt, refusal),
        Answer::Waiting(p) => println!(rt; "{} {} {}", p.waiting, p.count, p.lowest),
    }
}

fn refused(rt: &impl Print, Refusal { errno, reason }: Refusal) -> io::Result<()> {
    let errno = u32::from(errno);
    match reason {
        None => println!(rt; "-{errno}"),
        Some(reason) => println!(rt; "-{errno} reason {}", u8::from(reason)),
    }
}

// The tables: of the list and the threads what differs from fresh ones.
pub(crate) fn tables(rt: &impl Print, s: &State) -> io::Result<()> {
    println!(rt; "clock {} count {}", s.clock, s.count)?;
    print!(rt; "list")?;
    for (place, entry) in s.list.iter().enumerate() {
        if *entry != State::NO_ENTRY {
            print!(rt; " {place}:{entry}")?;
        }
    }
    println!(rt;)?;
    for (number, t) in s.threads.iter().enumerate() {
        if *t != Thread::fresh() {
            thread(rt, number, t)?;
        }
    }
    Ok(())
}

fn thread(rt: &impl Print, number: usize, t: &Thread) -> io::Result<()> {
    println!(rt;
        "thread {number} {} {} {} {} {} {} {}",
        u8::from(t.waiting),
        t.uaddr,
        t.bitset,
        u8::from(t.timed),
        t.deadline,
        t.last as u8,
        t.priority
    )
}
