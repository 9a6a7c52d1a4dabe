// The library for a host written in C: the entry points of vradomil, exported under their own names, with the same contracts. It stands on vradomil.
// Stays: each entry point stands here once more, with its parameters, by the C interface.
#![tactic(auto)]

ghost use Rattle.std.specs.Prelude.{[]};
ghost use Rattle.rules.specs.declared.event.Event.TheVariants.{Store, Clock, Interrupt, SetPriority};
ghost use Rattle.vradomil.specs.Host.{Calls, ChangesWords, ChangesTables, Shows, Initialised};

use vradomil::{call, event, report};

// Fresh tables are laid down.
#[unsafe(no_mangle)]
pub extern "C" fn vradomil_fresh(tables: &mut [u8]) -> i32
    ensures { Initialised tables.old result tables.new }
{
    event::vradomil_fresh(tables)
}

// A futex call.
#[unsafe(no_mangle)]
pub extern "C" fn vradomil_call(
    tables: &mut [u8],
    words: &mut [u8],
    process: u8,
    index: u8,
    op: u32,
    uaddr: u32,
    val: u32,
    flag: u8,
    timeout: u64,
    uaddr2: u32,
    val3: u32,
) -> i32
    ensures { Calls (record { process = process; index = index; op = op; uaddr = uaddr; val = val; flag = flag; timeout = timeout; uaddr2 = uaddr2; val3 = val3 }) tables.old words.old [] result tables.new words.new [] }
{
    call::vradomil_call(
        tables, words, process, index, op, uaddr, val, flag, timeout, uaddr2, val3,
    )
}

// A store.
#[unsafe(no_mangle)]
pub extern "C" fn vradomil_store(
    tables: &[u8],
    words: &mut [u8],
    process: u8,
    address: u32,
    value: u32,
) -> i32
    ensures { ChangesWords (Store process address value) tables.now words.old [] result words.new [] }
{
    event::vradomil_store(tables, words, process, address, value)
}

// A clock event.
#[unsafe(no_mangle)]
pub extern "C" fn vradomil_clock(tables: &mut [u8], words: &[u8], time: u64) -> i32
    ensures { ChangesTables (Clock time) tables.old words.now [] result tables.new [] }
{
    event::vradomil_clock(tables, words, time)
}

// An interrupt of a thread.
#[unsafe(no_mangle)]
pub extern "C" fn vradomil_interrupt(tables: &mut [u8], words: &[u8], process: u8, index: u8) -> i32
    ensures { ChangesTables (Interrupt process index) tables.old words.now [] result tables.new [] }
{
    event::vradomil_interrupt(tables, words, process, index)
}

// A thread gets another base priority.
#[unsafe(no_mangle)]
pub extern "C" fn vradomil_set_priority(
    tables: &mut [u8],
    words: &[u8],
    process: u8,
    index: u8,
    priority: u8,
) -> i32
    ensures { ChangesTables (SetPriority process index priority) tables.old words.now [] result tables.new [] }
{
    event::vradomil_set_priority(tables, words, process, index, priority)
}

// A panel query.
#[unsafe(no_mangle)]
pub extern "C" fn vradomil_query(tables: &[u8], process: u8) -> u32
    ensures { Shows process tables.now result }
{
    event::vradomil_query(tables, process)
}

// A futex call, with its report.
#[unsafe(no_mangle)]
pub extern "C" fn vradomil_call_report(
    tables: &mut [u8],
    words: &mut [u8],
    process: u8,
    index: u8,
    op: u32,
    uaddr: u32,
    val: u32,
    flag: u8,
    timeout: u64,
    uaddr2: u32,
    val3: u32,
    report: &mut [u8],
) -> i32
    ensures { Calls (record { process = process; index = index; op = op; uaddr = uaddr; val = val; flag = flag; timeout = timeout; uaddr2 = uaddr2; val3 = val3 }) tables.old words.old report.old result tables.new words.new report.new }
{
    report::vradomil_call_report(
        tables, words, process, index, op, uaddr, val, flag, timeout, uaddr2, val3, report,
    )
}

// A store, with its report.
#[unsafe(no_mangle)]
pub extern "C" fn vradomil_store_report(
    tables: &[u8],
    words: &mut [u8],
    process: u8,
    address: u32,
    value: u32,
    report: &mut [u8],
) -> i32
    ensures { ChangesWords (Store process address value) tables.now words.old report.old result words.new report.new }
{
    report::vradomil_store_report(tables, words, process, address, value, report)
}

// A clock event, with its report.
#[unsafe(no_mangle)]
pub extern "C" fn vradomil_clock_report(
    tables: &mut [u8],
    words: &[u8],
    time: u64,
    report: &mut [u8],
) -> i32
    ensures { ChangesTables (Clock time) tables.old words.now report.old result tables.new report.new }
{
    report::vradomil_clock_report(tables, words, time, report)
}

// An interrupt, with its report.
#[unsafe(no_mangle)]
pub extern "C" fn vradomil_interrupt_report(
    tables: &mut [u8],
    words: &[u8],
    process: u8,
    index: u8,
    report: &mut [u8],
) -> i32
    ensures { ChangesTables (Interrupt process index) tables.old words.now report.old result tables.new report.new }
{
    report::vradomil_interrupt_report(tables, words, process, index, report)
}

// A priority that is set, with its report.
#[unsafe(no_mangle)]
pub extern "C" fn vradomil_set_priority_report(
    tables: &mut [u8],
    words: &[u8],
    process: u8,
    index: u8,
    priority: u8,
    report: &mut [u8],
) -> i32
    ensures { ChangesTables (SetPriority process index priority) tables.old words.now report.old result tables.new report.new }
{
    report::vradomil_set_priority_report(tables, words, process, index, priority, report)
}
