//! A text that grows. Where memory fails it stays as it is from then on, and that is told once, in the end.
ghost use Rattle.std.specs.Prelude.{◌≡◌, true, false, IfOk, IfErr};

use std::alloc::{AllocError, Global};

/// A text to which more is appended. It notes whether memory was refused.
#[derive(Drop)]
pub struct Pen {
    text: String,
    has_failed: bool,
}

impl Pen {
    /// An empty text, which takes no memory yet.
    pub fn new(alloc: Global) -> Pen {
        Pen {
            text: String::new(alloc),
            has_failed: false,
        }
    }

    /// How many bytes it has.
    pub fn len(&self) -> usize {
        self.text.len()
    }

    /// Appends the text, unless memory was refused before.
    pub fn put(&mut self, text: &str) {
        if !self.has_failed {
            self.has_failed = self.text.push_str(text).is_err();
        }
    }

    /// Appends a text, and a number after it.
    pub fn number(&mut self, before: &str, number: usize) {
        self.large(before, number as u128);
    }

    /// Appends a text, and a number of 128 bits after it.
    pub fn large(&mut self, before: &str, number: u128) {
        self.put(before);
        if !self.has_failed {
            self.has_failed = write!(self.text, "{number}").is_err();
        }
    }

    /// Appends spaces until what was written from the place `from` on is `width` bytes long.
    pub fn pad(&mut self, from: usize, width: usize) {
        for _ in self.text.len().saturating_sub(from)..width {
            self.put(" ");
        }
    }

    /// What was written since it was last emptied, or that memory was refused somewhere.
    pub fn text(&self) -> Result<&str, AllocError> {
        if self.has_failed {
            return Err(AllocError);
        }
        Ok(self.text.as_str())
    }

    /// Begins anew, in the same room.
    pub fn clear(&mut self) {
        self.text.clear();
    }

    /// The whole text, or that memory was refused somewhere.
    pub fn done(self) -> Result<String, AllocError>
        ensures written { IfOk result (λ text. (text ≡ self.text) × (self.has_failed ≡ false)) }
        ensures refused { IfErr result (λ e. self.has_failed ≡ true) }
    {
        if self.has_failed {
            return Err(AllocError);
        }
        Ok(self.text)
    }
}
