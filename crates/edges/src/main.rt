// Edges: runs a script of events and probes on the kernel, and prints what happened. It stands on kernel.
#![tactic(auto)]

mod poke;
mod print;
mod script;

use kernel::event::apply;
use rules::answer::Answered;
use script::Record;
use std::io;
use tables::{State, WORDS};

// One word more than the kernel takes, so that too long a memory can be lent.
const MEMORY: usize = WORDS + 1;

// More records than this are not read.
const RECORDS: usize = 100_000_000;

// What a script runs on: the tables, and the memory of the processes, of which so many words are lent as there are, at most.
#[derive(Drop)]
struct Machine {
    state: State,
    words: [u32; MEMORY],
    lent: usize,
}

impl Machine {
    fn fresh() -> Self {
        Self {
            state: State::fresh(),
            words: [0; MEMORY],
            lent: WORDS,
        }
    }

    // Does what a record says, and prints what it prints.
    fn obey(&mut self, rt: &impl Print, record: Record) -> io::Result<()> {
        match record {
            Record::Event(event) => {
                let before = self.state;
                let lent = MEMORY.min(self.lent);
                let Answered { answer, state } = apply(before, &mut self.words[..lent], event);
                self.state = state;
                print::answer(rt, answer)?;
            }
            Record::Fresh => *self = Self::fresh(),
            Record::Lend(n) => self.lent = n as usize,
            Record::Poke(poke) => poke.set(&mut self.state),
            Record::Word { process, address } => println!(rt; "{}", self.word(process, address))?,
            Record::Dump => print::tables(rt, &self.state)?,
            Record::Unknown => {}
        }
        Ok(())
    }

    // A word of the whole memory, lent or not; 0 beyond it.
    fn word(&self, process: u8, address: u32) -> u32 {
        let base = State::WORDS_PER_PROCESS * usize::from(process % 16);
        let place = address / 4 % 65536;
        self.words.get(base + place as usize).copied().unwrap_or(0)
    }
}

fn main(rt: HostRuntime) -> io::Result<()> {
    let mut input = rt.stdin();
    let mut machine = Machine::fresh();
    for _ in 0..RECORDS {
        let Some(record) = script::next(&mut input)? else {
            break;
        };
        machine.obey(&rt, record)?;
    }
    Ok(())
}
