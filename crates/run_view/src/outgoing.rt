//! A text on its way to a sink.

ghost use Rattle.std.specs.{Prelude.{◌≡◌, ◌≤◌, Some, None, [], replicate}, Fmt.decimal};
ghost use Rattle.run_view.specs.Piped.{Adds, Ends, IsSomeSent};
ghost use Rattle.run_view.specs.Tables.{number_right, right};

use crate::pipe::{Begun, Writer};
use itoa::Buffer;
use shm_io::Sink;
use std::marker::{Model, PhantomData};

/// How many bytes of a text are kept before they are written.
pub(crate) const ROOM: usize = 65_536;

/// What is before words in a column.
const BLANKS: [u8; 32] = [b' '; 32];

/// A text on its way to a sink, a part of which is kept until it is large.
#[derive(Drop)]
pub(crate) struct Out<'a, K: Sink, B: Begun<K>> {
    writer: Writer<'a, K>,
    /// What isn't written yet.
    kept: Vec<u8>,
    /// How many bytes the text has.
    length: u64,
    of: PhantomData<B>,
}

impl<'a, K: Sink, B: Begun<K>> Model for Out<'a, K, B> {
    ghost use Rattle.run_view.specs.Piped.{IsSome, Sending};

    ghost Value = { Sending K };

    ghost view = { λ x. record { sink = x.writer.sink; stop = x.writer.stop; kept = x.kept.items } };

    ghost invariant = { λ x. IsSome K.held K.faults B.sink (record { sink = x.writer.sink; stop = x.writer.stop; kept = x.kept.items }) };
}

impl<'a, K: Sink, B: Begun<K>> Out<'a, K, B> {
    /// No text yet, and memory for what is kept of it.
    pub fn new(writer: Writer<'a, K>, kept: Vec<u8>) -> Out<'a, K, B>
        requires sink { B.sink ≡ Some writer.sink }
        requires fresh { writer.stop ≡ None }
        requires empty { kept.items ≡ [] }
        ensures { result ≡ record { sink = writer.entry.sink; stop = None; kept = [] } }
    {
        Out {
            writer,
            kept,
            length: 0,
            of: PhantomData,
        }
    }

    // writes what is kept
    fn flush(&mut self)
        ensures adds { Adds K.held K.faults self.old self.new [] }
        ensures empty { self.new.kept ≡ [] }
    {
        self.writer.write(self.kept.as_slice());
        self.kept.clear();
    }

    /// Where it goes.
    pub fn writer(self) -> Writer<'a, K>
        ensures { result.sink ≡ self.entry.sink }
    {
        let Out { writer, .. } = self;
        writer
    }

    /// Writes what is kept of a text that is whole.
    pub fn end(self) -> Writer<'a, K>
        ensures ends { Ends K.held K.faults self.entry result.stop result.sink }
        ensures some { IsSomeSent K.held K.faults B.sink result.stop result.sink }
    {
        let Out {
            mut writer,
            kept,
            ..
        } = self;
        writer.write(kept.as_slice());
        writer
    }

    // writes what is kept where there is no room for so many bytes more
    fn make_room(&mut self, more: usize)
        ensures { Adds K.held K.faults self.old self.new [] }
    {
        if self.kept.len().saturating_add(more) > ROOM {
            self.flush();
        }
    }

    // goes on with these bytes
    fn bytes(&mut self, bytes: &[u8])
        ensures { Adds K.held K.faults self.old self.new bytes.now }
    {
        self.length = self.length.saturating_add(bytes.len() as u64);
        self.make_room(bytes.len());
        self.keep(bytes);
    }

    // the same, whether or not there is room
    fn keep(&mut self, bytes: &[u8])
        ensures { Adds K.held K.faults self.old self.new bytes.now }
    {
        match self.kept.extend_from_slice(bytes) {
            Ok(()) => {}
            Err(_) => {
                self.flush();
                self.writer.write(bytes);
            }
        }
    }

    /// How many bytes the text has.
    pub fn length(&self) -> u64 {
        self.length
    }

    /// Goes on with these words.
    pub fn text(&mut self, words: &str)
        ensures { Adds K.held K.faults self.old self.new words.now }
    {
        self.bytes(words.as_bytes());
    }

    /// Goes on with a number in decimal.
    pub fn number(&mut self, number: u64)
        ensures { Adds K.held K.faults self.old self.new (decimal number) }
    {
        self.text(Buffer::new().format(number));
    }

    // goes on with so many blanks
    fn blanks(&mut self, count: usize)
        requires { count ≤ 32 }
        ensures { Adds K.held K.faults self.old self.new (replicate count 32) }
    {
        self.bytes(&BLANKS[..count]);
    }

    /// Goes on with blanks up to so many bytes behind a place, 32 at most.
    pub fn pad(&mut self, from: u64, width: u64) {
        let reach = from.saturating_add(width);
        self.blanks(reach.saturating_sub(self.length).min(32) as usize);
    }

    /// Goes on with words at the right of a column of this width.
    pub fn right(&mut self, words: &str, width: usize)
        requires { width ≤ 32 }
        ensures { Adds K.held K.faults self.old self.new (right width words.now) }
    {
        self.blanks(width.saturating_sub(words.len()));
        self.text(words);
    }

    /// Goes on with a number at the right of a column of this width, or with `-` where there is none.
    pub fn number_right(&mut self, number: Option<u64>, width: usize)
        requires { width ≤ 32 }
        ensures { Adds K.held K.faults self.old self.new (number_right width number) }
    {
        match number {
            Some(number) => self.right(Buffer::new().format(number), width),
            None => self.right("-", width),
        }
    }
}
