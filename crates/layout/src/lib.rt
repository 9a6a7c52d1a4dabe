// Layout: the tables as bytes, read and checked where they lie. It stands on tables and numbers.
#![tactic(auto)]

pub mod check;
pub mod read;

use tables::{THREADS, WORD_BYTES};

// The bytes of a word, as an address and a mask have them, and of a time or the count.
pub const WORD_SIZE: usize = WORD_BYTES as usize;

pub const TIME_SIZE: usize = 8;

// Where each column of the tables begins.
pub const CLOCK_AT: usize = 0;

pub const COUNT_AT: usize = CLOCK_AT + TIME_SIZE;

pub const LIST_AT: usize = COUNT_AT + TIME_SIZE;

pub const WAITING_AT: usize = LIST_AT + THREADS;

pub const TIMED_AT: usize = WAITING_AT + THREADS;

pub const LAST_AT: usize = TIMED_AT + THREADS;

pub const UADDR_AT: usize = LAST_AT + THREADS;

pub const BITSET_AT: usize = UADDR_AT + WORD_SIZE * THREADS;

pub const DEADLINE_AT: usize = BITSET_AT + WORD_SIZE * THREADS;

pub const PRIORITY_AT: usize = DEADLINE_AT + TIME_SIZE * THREADS;

pub const TABLES_SIZE: usize = PRIORITY_AT + THREADS;
