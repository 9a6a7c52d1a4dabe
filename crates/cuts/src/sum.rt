// Sums of events: each number of a record is mixed in, in the order of the log, its kind first.
ghost use Rattle.std.specs.Prelude.{◌≡◌, ◌+◌, ◌≤◌};

use rules::event::{Call, Event};

// How many events came, and their sum.
#[derive(Clone, Copy, Debug, Default, PartialEq, Eq)]
pub(crate) struct Seen {
    pub(crate) events: u64,
    pub(crate) sum: u64,
}

impl Seen {
    // A query has no record, and none is found.
    pub(crate) fn add(&mut self, event: Event)
        ensures { self.new.events ≤ 1 + self.old.events }
    {
        self.events = self.events.saturating_add(1);
        match event {
            Event::Call(call) => self.mix_call(call),
            Event::Store {
                process,
                address,
                value,
            } => self.mix(&[2, process.into(), address.into(), value.into()]),
            Event::Clock { time } => self.mix(&[3, time]),
            Event::Interrupt { process, index } => self.mix(&[4, process.into(), index.into()]),
            Event::Query { process } => self.mix(&[0, process.into()]),
            Event::SetPriority {
                process,
                index,
                priority,
            } => self.mix(&[5, process.into(), index.into(), priority.into()]),
        }
    }

    fn mix_call(&mut self, call: Call)
        ensures { self.new.events ≡ self.old.events }
    {
        self.mix(&[
            1,
            call.process.into(),
            call.index.into(),
            call.op.into(),
            call.uaddr.into(),
            call.val.into(),
            call.flag.into(),
            call.timeout,
            call.uaddr2.into(),
            call.val3.into(),
        ]);
    }

    fn mix(&mut self, numbers: &[u64])
        ensures { self.new.events ≡ self.old.events }
    {
        self.sum = numbers
            .iter()
            .fold(self.sum, |sum, number| sum.rotate_left(7) ^ *number);
    }
}
