// What can happen to the kernel: calls, stores, clock events, interrupts, panel queries and set priorities.
ghost use Rattle.std.specs.Prelude.{◌≡◌};
ghost use Rattle.rules.specs.Commands.{numbered};

// The commands of linux/futex.h that the kernel knows, and any other.
// Stays: Unknown is no None, for uses, call_effect and is_unknown of rules/specs take each command, and theorems speak of calls by any op.
#[derive(Clone, Copy, Debug, PartialEq, Eq)]
pub enum Command {
    Wait,
    Wake,
    Requeue,
    CmpRequeue,
    WakeOp,
    WaitBitset,
    WakeBitset,
    Unknown,
}

impl From<u32> for Command {
    ghost from_gives = { λ n command. command ≡ numbered n };

    // Stays: here a number becomes a command, and none is carried out; TryFrom is no plainer, for any other number is Unknown.
    fn from(n: u32) -> Command {
        match n {
            0 => Command::Wait,
            1 => Command::Wake,
            3 => Command::Requeue,
            4 => Command::CmpRequeue,
            5 => Command::WakeOp,
            9 => Command::WaitBitset,
            10 => Command::WakeBitset,
            _ => Command::Unknown,
        }
    }
}

// Which arguments a command uses, besides uaddr.
// Stays: six flags, none with a value beside it: they are a row of the table `uses` of rules/specs/Commands.antt, which theorems read by field.
#[derive(Clone, Copy, Debug, PartialEq, Eq)]
pub struct Uses {
    // val as a wake cap
    pub cap: bool,
    // uaddr2, and timeout as the second cap
    pub second: bool,
    // val3 as a mask
    pub mask: bool,
    // the word at uaddr compared with a number
    pub compare: bool,
    // flag and timeout as a deadline: the command sleeps
    pub deadline: bool,
    // sleepers moved from uaddr to uaddr2
    pub moves: bool,
}

// A futex call, with the argument names of futex(2); flag says whether a timeout is given.
#[derive(Clone, Copy, Debug, PartialEq, Eq)]
pub struct Call {
    pub process: u8,
    pub index: u8,
    pub op: u32,
    pub uaddr: u32,
    pub val: u32,
    pub flag: u8,
    pub timeout: u64,
    pub uaddr2: u32,
    pub val3: u32,
}

#[derive(Clone, Copy, Debug, PartialEq, Eq)]
pub enum Event {
    Call(Call),
    Store {
        process: u8,
        address: u32,
        value: u32,
    },
    Clock {
        time: u64,
    },
    Interrupt {
        process: u8,
        index: u8,
    },
    Query {
        process: u8,
    },
    SetPriority {
        process: u8,
        index: u8,
        priority: u8,
    },
}
