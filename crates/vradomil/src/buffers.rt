// What a host lends: tables and words, tested before anything else.
ghost use Rattle.std.specs.Prelude.{◌≡◌, ◌<◌, get_or};
ghost use Rattle.tables.specs.Sizes.{memory_words};
ghost use Rattle.layout.specs.Layout.{words_at};
ghost use Rattle.rules.specs.Answers.{plain};
ghost use Rattle.vradomil.specs.Host.{BuffersJudged};

use layout::WORD_SIZE;
use layout::check::sound;
use numbers::u32_at;
use rules::answer::{Errno, Refusal};
use tables::{THREADS, WORDS};

pub(crate) const WORDS_SIZE: usize = WORD_SIZE * WORDS;

// An error that has no reason beside it.
// Stays: verdicts::refused is this inside an Err; as From<Errno> for Refusal a reason could be lost by a bare `?`.
fn refused(errno: Errno) -> Refusal
    ensures { result ≡ plain errno }
{
    Refusal {
        errno,
        reason: None,
    }
}

// The first two rows of the table of answers; and, where neither refuses, where each thread stands in the arrival list.
pub(crate) fn judge_buffers(tables: &[u8], words: &[u8]) -> Result<[u8; THREADS], Refusal>
    ensures { BuffersJudged tables.now words.now result }
{
    if words.len() != WORDS_SIZE {
        return Err(refused(Errno::ENXIO));
    }
    sound(tables).ok_or(refused(Errno::EBADF))
}

pub(crate) fn word_at(words: &[u8; WORDS_SIZE], i: usize) -> u32
    requires { i < memory_words }
    ensures { result ≡ get_or (words_at words.now) i 0 }
{
    u32_at(words, WORD_SIZE * i)
}
