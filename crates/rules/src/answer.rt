// What the kernel answers.
ghost use Rattle.std.specs.Prelude.{◌≡◌, Some};
ghost use Rattle.rules.specs.Answers.{errno_number, reason_number};
ghost use Rattle.rules.specs.Words.{errno_text, reason_text, refusal_text};

use std::error::Error;
use std::fmt;
use tables::State;

// The error numbers of the Linux headers that a refusal can give.
#[derive(Clone, Copy, Debug, PartialEq, Eq)]
pub enum Errno {
    ENXIO = 6,
    EBADF = 9,
    ESRCH = 3,
    EBUSY = 16,
    ENOSYS = 38,
    EINVAL = 22,
    EFAULT = 14,
    EAGAIN = 11,
    ETIMEDOUT = 110,
}

impl From<Errno> for u32 {
    ghost from_gives = { λ errno n. n ≡ errno_number errno };

    fn from(errno: Errno) -> u32 {
        errno as u32
    }
}

impl fmt::Display for Errno {
    ghost output = { λ errno. Some (errno_text errno) };

    fn fmt<W: fmt::Write>(&self, f: &mut fmt::Formatter<W>) -> fmt::Result {
        f.write_str(match self {
            Errno::ENXIO => "ENXIO",
            Errno::EBADF => "EBADF",
            Errno::ESRCH => "ESRCH",
            Errno::EBUSY => "EBUSY",
            Errno::ENOSYS => "ENOSYS",
            Errno::EINVAL => "EINVAL",
            Errno::EFAULT => "EFAULT",
            Errno::EAGAIN => "EAGAIN",
            Errno::ETIMEDOUT => "ETIMEDOUT",
        })
    }
}

// What is wrong with an event that is refused with -22.
#[derive(Clone, Copy, Debug, PartialEq, Eq)]
pub enum Reason {
    FirstCap = 1,
    SecondCap = 2,
    MaskZero = 3,
    UaddrUnaligned = 4,
    Uaddr2Unaligned = 5,
    SameAddress = 6,
    ClockBack = 7,
    PriorityHigh = 8,
}

impl From<Reason> for u8 {
    ghost from_gives = { λ reason n. n ≡ reason_number (Some reason) };

    fn from(reason: Reason) -> u8 {
        reason as u8
    }
}

impl fmt::Display for Reason {
    ghost output = { λ reason. Some (reason_text reason) };

    fn fmt<W: fmt::Write>(&self, f: &mut fmt::Formatter<W>) -> fmt::Result {
        f.write_str(match self {
            Reason::FirstCap => "val, the first cap, is above 2147483647",
            Reason::SecondCap => "the second cap is above 2147483647",
            Reason::MaskZero => "val3, the mask, is 0",
            Reason::UaddrUnaligned => "uaddr, or a store's address, is not a multiple of 4",
            Reason::Uaddr2Unaligned => "uaddr2 is not a multiple of 4",
            Reason::SameAddress => "uaddr and uaddr2 are the same",
            Reason::ClockBack => "the clock went back",
            Reason::PriorityHigh => "the priority is above 31",
        })
    }
}

// An error, and the reason beside it where there is one.
#[derive(Clone, Copy, Debug, PartialEq, Eq)]
pub struct Refusal {
    pub errno: Errno,
    pub reason: Option<Reason>,
}

impl fmt::Display for Refusal {
    ghost output = { λ refusal. Some (refusal_text refusal) };

    fn fmt<W: fmt::Write>(&self, f: &mut fmt::Formatter<W>) -> fmt::Result {
        match self.reason {
            Some(reason) => write!(f, "{}: {reason}", self.errno),
            None => write!(f, "{}", self.errno),
        }
    }
}

impl Error for Refusal {}

// The waiting threads of a process: bit i for thread i, how many, and the lowest.
#[derive(Clone, Copy, Debug, PartialEq, Eq)]
pub struct Panel {
    pub waiting: u8,
    pub count: u32,
    pub lowest: u32,
}

// Stays: no Result, for answer_numbers (rules/specs/Answers.antt) and the theorems speak of these four answers of document 01.
#[derive(Clone, Copy, Debug, PartialEq, Eq)]
pub enum Answer {
    Asleep,
    Count(u32),
    Refused(Refusal),
    Waiting(Panel),
}

// What an event is answered, and the tables that it leaves.
#[derive(Clone, Copy)]
pub struct Answered {
    pub answer: Answer,
    pub state: State,
}
