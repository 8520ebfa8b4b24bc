//! The words of a command line.

ghost use Rattle.std.specs.Prelude.{◌≡◌, [], ◌∷◌, ◌++◌, OnOk, OnErr};

use cd_base::{NoMemory, Text};
use std::alloc::Global;
use std::marker::Model;

/// The words of a command line, without the program's name. Contracts see the list of their bytes.
#[derive(Drop)]
pub struct Words {
    words: Vec<Text>,
}

impl Model for Words {
    ghost use Rattle.std.specs.Prelude.{List, ℕ};

    ghost Value = { List (List ℕ) };

    ghost view = { λ it. it.words.items };
}

impl Words {
    /// No words. It takes no memory.
    pub fn new(alloc: Global) -> Words
        ensures { result ≡ [] }
    {
        Words {
            words: Vec::new(alloc),
        }
    }

    /// Puts a word last.
    pub fn push(&mut self, word: Text) -> Result<(), NoMemory>
        ensures ok { OnOk result (self.new ≡ self.old ++ word ∷ []) }
        ensures err { OnErr result (self.new ≡ self.old) }
    {
        self.words.push(word)?;
        Ok(())
    }

    /// The words in order. It takes no memory.
    pub fn items(&self) -> &[Text]
        ensures { result.now ≡ self.now }
    {
        self.words.as_slice()
    }
}
