// What a call reads of the tables' bytes besides its view: whether a thread waits.
ghost use Rattle.std.specs.Prelude.{◌≡◌, ◌<◌};
ghost use Rattle.tables.specs.Sizes.{threads};
ghost use Rattle.layout.specs.Layout.{thread_at};

use crate::{TABLES_SIZE, WAITING_AT};

pub fn waits_at(b: &[u8; TABLES_SIZE], i: usize) -> bool
    requires { i < threads }
    ensures { result ≡ (thread_at b.now i).waiting }
{
    b[WAITING_AT + i] == 1
}
