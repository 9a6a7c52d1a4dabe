// Hosting: what is proved of whole histories that a host in C runs through the library. It stands on vradomil.
#![tactic(auto)]

ghost use Rattle.std.specs.Prelude.{[]};
ghost use Rattle.vradomil.specs.Host.{Calls};
ghost use Rattle.hosting.specs.Hosts.{Hosted};

use rules::event::{Call, Event};
use vradomil::call::vradomil_call;
use vradomil::event::{
    vradomil_clock, vradomil_interrupt, vradomil_query, vradomil_set_priority, vradomil_store,
};
use vradomil::report::{
    vradomil_call_report, vradomil_clock_report, vradomil_interrupt_report,
    vradomil_set_priority_report, vradomil_store_report,
};

// A call, as a host passes it.
fn pass_call(tables: &mut [u8], words: &mut [u8], c: Call) -> i32
    ensures { Calls c tables.old words.old [] result tables.new words.new [] }
{
    vradomil_call(
        tables, words, c.process, c.index, c.op, c.uaddr, c.val, c.flag, c.timeout, c.uaddr2,
        c.val3,
    )
}

fn pass_call_report(tables: &mut [u8], words: &mut [u8], c: Call, report: &mut [u8]) -> i32
    ensures { Calls c tables.old words.old report.old result tables.new words.new report.new }
{
    vradomil_call_report(
        tables, words, c.process, c.index, c.op, c.uaddr, c.val, c.flag, c.timeout, c.uaddr2,
        c.val3, report,
    )
}

// An event as a host passes it to its entry point. The theorems take for known of an event what this and pass_report ensure, and no more.
pub fn pass(tables: &mut [u8], words: &mut [u8], e: Event) -> i64
    ensures { Hosted e tables.old words.old [] result tables.new words.new [] }
{
    match e {
        Event::Call(c) => pass_call(tables, words, c).into(),
        Event::Store {
            process,
            address,
            value,
        } => vradomil_store(tables, words, process, address, value).into(),
        Event::Clock { time } => vradomil_clock(tables, words, time).into(),
        Event::Interrupt { process, index } => {
            vradomil_interrupt(tables, words, process, index).into()
        }
        Event::Query { process } => vradomil_query(tables, process).into(),
        Event::SetPriority {
            process,
            index,
            priority,
        } => vradomil_set_priority(tables, words, process, index, priority).into(),
    }
}

// The same with a report, of which a panel query has none.
// Stays: one function for each of the two kinds of entry points of the C interface, for HostRuns (specs/Hosts.antt) goes by what both ensure.
pub fn pass_report(tables: &mut [u8], words: &mut [u8], e: Event, report: &mut [u8]) -> i64
    ensures { Hosted e tables.old words.old report.old result tables.new words.new report.new }
{
    match e {
        Event::Call(c) => pass_call_report(tables, words, c, report).into(),
        Event::Store {
            process,
            address,
            value,
        } => vradomil_store_report(tables, words, process, address, value, report).into(),
        Event::Clock { time } => vradomil_clock_report(tables, words, time, report).into(),
        Event::Interrupt { process, index } => {
            vradomil_interrupt_report(tables, words, process, index, report).into()
        }
        Event::Query { process } => vradomil_query(tables, process).into(),
        Event::SetPriority {
            process,
            index,
            priority,
        } => vradomil_set_priority_report(tables, words, process, index, priority, report).into(),
    }
}
