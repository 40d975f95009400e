//! A line of JSON, token by token.
ghost use Rattle.std.specs.Prelude.{◌≡◌, ◌++◌, [], ◌∷◌, IfOk, OnOk, codes, decimal};
ghost use Rattle.json.specs.Lex.{tokens};
ghost use Rattle.json.specs.Print.{print};
ghost use Rattle.json.specs.Token as token;

use json::Writer;
use std::alloc::{AllocError, Global};

/// A line that is being written.
#[derive(Drop)]
pub(crate) struct Line {
    alloc: Global,
    writer: Writer,
    ghost alone: { writer.before ≡ [] },
}

impl Line {
    /// A line without tokens.
    pub(crate) fn new(alloc: Global) -> Line
        ensures { result.writer.tokens ≡ [] }
    {
        Line {
            alloc,
            writer: Writer::new(Vec::new(alloc)),
        }
    }

    /// What gives the line its memory.
    pub(crate) fn allocator(&self) -> Global {
        self.alloc
    }

    pub(crate) fn begin_object(&mut self) -> Result<(), AllocError>
        ensures { OnOk result (self.new.writer.tokens ≡ self.old.writer.tokens ++ token.begin_object ∷ []) }
    {
        self.writer.begin_object()
    }

    pub(crate) fn end_object(&mut self) -> Result<(), AllocError>
        ensures { OnOk result (self.new.writer.tokens ≡ self.old.writer.tokens ++ token.end_object ∷ []) }
    {
        self.writer.end_object()
    }

    pub(crate) fn begin_array(&mut self) -> Result<(), AllocError>
        ensures { OnOk result (self.new.writer.tokens ≡ self.old.writer.tokens ++ token.begin_array ∷ []) }
    {
        self.writer.begin_array()
    }

    pub(crate) fn end_array(&mut self) -> Result<(), AllocError>
        ensures { OnOk result (self.new.writer.tokens ≡ self.old.writer.tokens ++ token.end_array ∷ []) }
    {
        self.writer.end_array()
    }

    /// Adds a key. Its value must follow.
    pub(crate) fn key(&mut self, key: &str) -> Result<(), AllocError>
        ensures { OnOk result (self.new.writer.tokens ≡ self.old.writer.tokens ++ token.key key.now ∷ []) }
    {
        self.writer.key(key)
    }

    pub(crate) fn null(&mut self) -> Result<(), AllocError>
        ensures { OnOk result (self.new.writer.tokens ≡ self.old.writer.tokens ++ token.null ∷ []) }
    {
        self.writer.null()
    }

    /// Adds a key and a number.
    pub(crate) fn number(&mut self, key: &str, number: u64) -> Result<(), AllocError>
        ensures { OnOk result (self.new.writer.tokens ≡ self.old.writer.tokens ++ token.key key.now ∷ token.number (decimal number) ∷ []) }
    {
        self.writer.key(key)?;
        self.writer.u64(number)
    }

    /// Adds a key and a text.
    pub(crate) fn text(&mut self, key: &str, text: &str) -> Result<(), AllocError>
        ensures { OnOk result (self.new.writer.tokens ≡ self.old.writer.tokens ++ token.key key.now ∷ token.string text.now ∷ []) }
    {
        self.writer.key(key)?;
        self.writer.string(text)
    }

    /// Adds a key and a truth value.
    pub(crate) fn truth(&mut self, key: &str, holds: bool) -> Result<(), AllocError>
        ensures { OnOk result (self.new.writer.tokens ≡ self.old.writer.tokens ++ token.key key.now ∷ token.boolean holds ∷ []) }
    {
        self.writer.key(key)?;
        self.writer.boolean(holds)
    }

    /// The bytes of the line, with a line feed at its end.
    pub(crate) fn finish(self) -> Result<Vec<u8>, AllocError>
        ensures text { IfOk result (λ line. line.items ≡ print self.writer.tokens ++ codes "\n") }
        ensures reads_back { IfOk result (λ line. tokens line.items ≡ self.writer.tokens) }
    {
        let Line { writer, .. } = self;
        let mut line = writer.into_inner();
        line.push(b'\n')?;
        Ok(line)
    }
}
