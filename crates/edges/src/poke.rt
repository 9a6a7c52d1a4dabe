// Pokes: one field of the tables is set, to any value.
use tables::{LastAnswer, State, THREADS};

// The number of the field, the place of the thread or of the entry, and the value.
// Stays: the field is a number, for an enum of the ten would be matched twice, by number and by name, and is no plainer.
#[derive(Clone, Copy, Debug, PartialEq, Eq)]
pub(crate) struct Poke {
    pub(crate) field: u8,
    pub(crate) index: u8,
    pub(crate) value: u64,
}

impl Poke {
    // The value is cut to the field's width; a field above 9 is none.
    pub(crate) fn set(self, state: &mut State) {
        let Self {
            field,
            index,
            value,
        } = self;
        let index = usize::from(index) % THREADS;
        let thread = &mut state.threads[index];
        match field {
            0 => state.clock = value,
            1 => state.count = value as usize,
            2 => state.list[index] = (value & 0xff) as u8,
            3 => thread.waiting = value % 2 == 1,
            4 => thread.uaddr = (value & 0xffff_ffff) as u32,
            5 => thread.bitset = (value & 0xffff_ffff) as u32,
            6 => thread.timed = value % 2 == 1,
            7 => thread.deadline = value,
            8 => thread.last = last_answer(value),
            9 => thread.priority = (value & 0xff) as u8,
            _ => {}
        }
    }
}

// Stays: any value is one of the four, so that a TryFrom, which refuses, does not say it, and a From for all of u64 belongs to the script alone.
fn last_answer(value: u64) -> LastAnswer {
    match value % 4 {
        0 => LastAnswer::NoneYet,
        1 => LastAnswer::Woken,
        2 => LastAnswer::TimedOut,
        _ => LastAnswer::Interrupted,
    }
}
