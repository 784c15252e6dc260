//! Lists of bytes, of characters and of any items.
ghost use Rattle.std.specs.Prelude.{◌≡◌, [], ◌∷◌, ◌++◌, IfOk, OnOk, OnErr};
ghost use Rattle.std.specs.Str.{IsUtf8};
ghost use Rattle.eo_base.specs.Characters.{AreCharacters};

use std::alloc::{AllocError, Global};
use std::marker::Model;

/// A list of bytes that are UTF-8.
#[derive(Debug, Drop)]
pub struct Text {
    text: String,
}

impl Model for Text {
    ghost use Rattle.std.specs.Prelude.{ℕ, List, string_bytes};

    ghost Value = { List ℕ };

    ghost view = { λ a. string_bytes a.text };
}

impl Text {
    /// A text with the bytes of `s`. Refused only where no memory is left.
    pub fn new(alloc: Global, s: &str) -> Result<Text, AllocError>
        ensures { IfOk result (λ t. t ≡ s.now) }
    {
        let text = String::from_str(alloc, s)?;
        Ok(Text { text })
    }

    /// The bytes, which are UTF-8.
    pub fn as_bytes(&self) -> &[u8]
        ensures value { result.now ≡ self.now }
        ensures utf8 { IsUtf8 result.now }
    {
        self.text.as_str().as_bytes()
    }

    /// The same bytes, as text.
    pub fn as_str(&self) -> &str
        ensures { result.now ≡ self.now }
    {
        self.text.as_str()
    }
}

/// A list of characters of strings, each at most 0x2FFFF.
#[derive(Debug, Drop)]
pub struct Chars {
    characters: Vec<u32>,
}

impl Model for Chars {
    ghost use Rattle.std.specs.Prelude.{ℕ, List};
    ghost use Rattle.eo_base.specs.Characters.{AreCharacters};

    ghost Value = { List ℕ };

    ghost view = { λ a. a.characters.items };

    ghost invariant = { λ a. AreCharacters a.characters.items };
}

impl Chars {
    /// A list of these characters. Refused only where no memory is left.
    pub fn new(alloc: Global, c: &[u32]) -> Result<Chars, AllocError>
        requires { AreCharacters c.now }
        ensures { IfOk result (λ a. a ≡ c.now) }
    {
        let characters = c.to_vec(alloc)?;
        Ok(Chars { characters })
    }

    /// The characters.
    pub fn as_slice(&self) -> &[u32]
        ensures value { result.now ≡ self.now }
        ensures characters { AreCharacters result.now }
    {
        self.characters.as_slice()
    }
}

/// A list of any items.
#[derive(Debug, Drop)]
pub struct List<T> {
    items: Vec<T>,
}

impl<T> Model for List<T> {
    ghost use Rattle.std.specs.Prelude.{List as Items};

    ghost Value = { Items T };

    ghost view = { λ a. a.items.items };
}

impl<T: Drop> List<T> {
    /// Nothing. No memory is taken.
    pub fn new(alloc: Global) -> List<T>
        ensures { result ≡ [] }
    {
        List {
            items: Vec::new(alloc),
        }
    }

    /// Appends an item. Where there is no memory left, the list stays as it is.
    pub fn push(&mut self, item: T) -> Result<(), AllocError>
        ensures pushed { OnOk result (self.new ≡ self.old ++ item ∷ []) }
        ensures err { OnErr result (self.new ≡ self.old) }
    {
        self.items.push(item)?;
        Ok(())
    }

    /// The items in order.
    pub fn as_slice(&self) -> &[T]
        ensures { result.now ≡ self.now }
    {
        self.items.as_slice()
    }
}
