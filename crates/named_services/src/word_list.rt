//! The words of a command line that say which services are meant.

ghost use Rattle.std.specs.Prelude.{◌≡◌, IfOk, OnOk, length};
ghost use Rattle.named_services.specs.ServiceWords.{has_name, is_word, with_word};

use crate::service_word::ServiceWord;
use std::alloc::{AllocError, Global};
use std::marker::Model;

/// Words that say which services are meant, each once. Contracts see the list of them.
#[derive(Drop)]
pub struct ServiceWords {
    words: Vec<ServiceWord>,
}

impl Model for ServiceWords {
    ghost use Rattle.std.specs.Prelude.{List};
    ghost use Rattle.named_services.specs.declared.service_word.ServiceWord.{ServiceWord};

    ghost Value = { List ServiceWord };

    ghost view = { λ w. w.words.items };
}

impl ServiceWords {
    ghost use Rattle.std.specs.Prelude.{[]};

    /// No word.
    pub fn none(alloc: Global) -> ServiceWords
        ensures { result ≡ [] }
    {
        ServiceWords {
            words: Vec::new(alloc),
        }
    }

    /// Adds a word, unless it is there.
    pub fn add(&mut self, word: ServiceWord) -> Result<(), AllocError>
        ensures { OnOk result (self.new ≡ with_word self.old word) }
    {
        if self.has(&word) {
            return Ok(());
        }
        self.words.push(word)?;
        Ok(())
    }

    // Whether a word is one of them.
    fn has(&self, word: &ServiceWord) -> bool
        ensures { result ≡ is_word self.now word.now }
    {
        self.words.iter().any(|one| word.is_same(one))
    }

    /// Whether one of them is a name.
    pub fn has_name(&self) -> bool
        ensures { result ≡ has_name self.now }
    {
        self.words.iter().any(|word| word.is_name())
    }

    /// How many there are.
    pub fn len(&self) -> usize
        ensures { result ≡ length self.now }
    {
        self.words.len()
    }

    /// The words as a slice.
    pub fn as_slice(&self) -> &[ServiceWord]
        ensures { result.now ≡ self.now }
    {
        self.words.as_slice()
    }

    /// The same words in memory of their own.
    pub fn copy(&self, alloc: Global) -> Result<ServiceWords, AllocError>
        ensures { IfOk result (λ words. words ≡ self.now) }
    {
        let words = copies(alloc, self.words.as_slice())?;
        Ok(ServiceWords { words })
    }
}

// Copies of words.
fn copies(alloc: Global, words: &[ServiceWord]) -> Result<Vec<ServiceWord>, AllocError>
    ensures { IfOk result (λ made. made.items ≡ words.now) }
{
    let mut made = Vec::new(alloc);
    for word in words {
        let copy = word.copy()?;
        made.push(copy)?;
    }
    Ok(made)
}
