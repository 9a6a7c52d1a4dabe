// A buffer in front of a reader, and one in front of a writer.
// Stays: buffers with places beside them, by the rule of fixed memory; std's BufReader and BufWriter take theirs from the heap.
ghost use Rattle.std.specs.Prelude.{◌≤◌};
ghost use Rattle.cuts.specs.declared.buffers.TheConstants.{SIZE};

use std::io::{self, Read, Write};

const SIZE: usize = 65536;

// bytes[at..end] came from the reader and are still to be handed on.
#[derive(Drop)]
pub(crate) struct Reader<R> {
    inner: R,
    bytes: [u8; SIZE],
    at: usize,
    end: usize,
    ghost ordered: { at ≤ end },
    ghost inside: { end ≤ SIZE },
}

impl<R: Read> Reader<R> {
    pub(crate) fn new(inner: R) -> Self {
        Self {
            inner,
            bytes: [0; SIZE],
            at: 0,
            end: 0,
        }
    }

    // Sees that so many bytes are here; where fewer are, the reader has no more.
    #[inline(always)]
    pub(crate) fn fill(&mut self, n: usize) -> io::Result<()> {
        if n <= self.end - self.at {
            return Ok(());
        }
        self.bytes.copy_within(self.at..self.end, 0);
        self.end -= self.at;
        self.at = 0;
        self.ask(n)
    }

    fn ask(&mut self, n: usize) -> io::Result<()> {
        for _ in 0..n {
            match self.inner.read(&mut self.bytes[self.end..])? {
                0 => break,
                got => self.end += got,
            }
            if n <= self.end {
                break;
            }
        }
        Ok(())
    }

    pub(crate) fn here(&self) -> &[u8] {
        &self.bytes[self.at..self.end]
    }

    // Passes over bytes that are here.
    pub(crate) fn pass(&mut self, n: usize) {
        self.at += n.min(self.end - self.at);
    }
}

impl<R: Read> Read for Reader<R> {
    fn read(&mut self, buffer: &mut [u8]) -> io::Result<usize> {
        if self.at == self.end {
            self.at = 0;
            self.end = 0;
            self.end = self.inner.read(&mut self.bytes)?;
        }
        let n = buffer.len().min(self.end - self.at);
        buffer[..n].copy_from_slice(&self.bytes[self.at..self.at + n]);
        self.at += n;
        Ok(n)
    }
}

// bytes[..len] are still to be written.
#[derive(Drop)]
pub(crate) struct Writer<W> {
    inner: W,
    bytes: [u8; SIZE],
    len: usize,
    ghost inside: { len ≤ SIZE },
}

impl<W: Write> Writer<W> {
    pub(crate) fn new(inner: W) -> Self {
        Self {
            inner,
            bytes: [0; SIZE],
            len: 0,
        }
    }
}

impl<W: Write> Write for Writer<W> {
    fn write(&mut self, text: &[u8]) -> io::Result<usize> {
        if self.len == SIZE {
            self.flush()?;
        }
        let n = text.len().min(SIZE - self.len);
        self.bytes[self.len..self.len + n].copy_from_slice(&text[..n]);
        self.len += n;
        Ok(n)
    }

    // A text for which there is no room waits until what is there is written, and one that is longer than the buffer doesn't go through it.
    #[inline(always)]
    fn write_all(&mut self, text: &[u8]) -> io::Result<()> {
        if SIZE - self.len < text.len() {
            self.flush()?;
        }
        if SIZE - self.len < text.len() {
            return self.inner.write_all(text);
        }
        self.bytes[self.len..self.len + text.len()].copy_from_slice(text);
        self.len += text.len();
        Ok(())
    }

    fn flush(&mut self) -> io::Result<()> {
        self.inner.write_all(&self.bytes[..self.len])?;
        self.len = 0;
        self.inner.flush()
    }
}
