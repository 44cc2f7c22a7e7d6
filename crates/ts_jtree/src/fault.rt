//! The first fault of a JSON value.

ghost use Rattle.std.specs.Prelude.{◌≡◌, ◌∷◌, IfOk};
ghost use Rattle.std.specs.String.{string_bytes};
ghost use Rattle.ts_jtree.specs.declared.fault.ReadRefusal.TheVariants.{NoMemory};
ghost use Rattle.ts_jtree.specs.Faults.{IsRefusal, IsAtChild};

use std::alloc::{AllocError, AllocFailed, Global};
use std::marker::Model;

/// What is wrong with a key.
#[derive(Debug, Clone, Copy, PartialEq, Eq)]
pub enum JsonKind {
    /// The key is required and absent.
    Missing,
    /// Its value does not have the form that is asked for.
    WrongKind,
    /// Its value has the right form and is outside its range.
    OutOfRange,
    /// This key, or an element of this name, may not stand here.
    UnknownKey,
}

/// The path to an element: the numbers of children from the value that was read, each from 0. Contracts see the
/// list of them.
#[derive(Debug, Drop)]
pub struct PathList {
    places: Vec<usize>,
}

impl Model for PathList {
    ghost use Rattle.std.specs.Prelude.{List, ℕ};

    ghost Value = { List ℕ };

    ghost view = { λ p. p.places.items };
}

impl PathList {
    /// The path of these numbers. Allocates nothing.
    pub fn of(places: Vec<usize>) -> PathList
        ensures { result ≡ places.items }
    {
        PathList { places }
    }

    /// The numbers as a slice.
    pub fn as_slice(&self) -> &[usize]
        ensures { result.now ≡ self.now }
    {
        self.places.as_slice()
    }
}

/// A key of an element, which contracts see as the bytes of its UTF-8 form.
#[derive(Debug, Drop)]
pub struct KeyText {
    text: String,
}

impl Model for KeyText {
    ghost use Rattle.std.specs.Prelude.{List, ℕ};
    ghost use Rattle.std.specs.String.{string_bytes};

    ghost Value = { List ℕ };

    ghost view = { λ k. string_bytes k.text };
}

impl KeyText {
    /// The key with this text. Allocates nothing.
    pub fn of(text: String) -> KeyText
        ensures { result ≡ string_bytes text }
    {
        KeyText { text }
    }

    /// The text as a `str`.
    pub fn as_str(&self) -> &str
        ensures { result.now ≡ self.now }
    {
        self.text.as_str()
    }
}

/// The first fault of a value that was read.
#[derive(Debug, Drop)]
pub struct JsonFault {
    /// The path to the faulty element.
    pub path: PathList,
    /// Its faulty key; `#name` where the element itself is at fault, and `#nodes` for its children.
    pub key: KeyText,
    /// What is wrong with the key.
    pub kind: JsonKind,
}

/// Why a value was not read.
#[derive(Debug, Drop)]
pub enum ReadRefusal {
    /// The value has this first fault.
    Json(JsonFault),
    /// Out of memory.
    NoMemory,
}

impl From<AllocError> for ReadRefusal {
    ghost from_gives = { λ _ refusal. refusal ≡ NoMemory };

    fn from(_error: AllocError) -> ReadRefusal {
        ReadRefusal::NoMemory
    }
}

impl<T: Drop> From<AllocFailed<T>> for ReadRefusal {
    ghost from_gives = { λ _ refusal. refusal ≡ NoMemory };

    fn from(_error: AllocFailed<T>) -> ReadRefusal {
        ReadRefusal::NoMemory
    }
}

/// The refusal of a key of the value that was read; `NoMemory` where there is no memory for it.
pub fn refuse_key(alloc: Global, key: &str, kind: JsonKind) -> ReadRefusal
    ensures { IsRefusal result key.now kind }
{
    match String::from_str(alloc, key) {
        Ok(key) => ReadRefusal::Json(JsonFault {
            path: PathList::of(Vec::new(alloc)),
            key: KeyText::of(key),
            kind,
        }),
        Err(_) => ReadRefusal::NoMemory,
    }
}

/// A child's refusal as a refusal of its parent: the child's number comes first in its path.
pub fn at_child(alloc: Global, place: usize, refusal: ReadRefusal) -> ReadRefusal
    ensures { IsAtChild refusal place result }
{
    let fault = match refusal {
        ReadRefusal::Json(fault) => fault,
        ReadRefusal::NoMemory => return ReadRefusal::NoMemory,
    };
    match longer_path(alloc, place, &fault.path) {
        Ok(path) => ReadRefusal::Json(with_path(fault, path)),
        Err(_) => ReadRefusal::NoMemory,
    }
}

/// A fault with another path.
fn with_path(fault: JsonFault, path: PathList) -> JsonFault
    ensures { result ≡ record fault { path = path } }
{
    let JsonFault { path: _, key, kind } = fault;
    JsonFault { path, key, kind }
}

/// A path with one number put before it.
fn longer_path(alloc: Global, place: usize, path: &PathList) -> Result<PathList, AllocError>
    ensures { IfOk result (λ p. p ≡ place ∷ path.now) }
{
    let mut places = Vec::with_capacity(alloc, 1 + path.as_slice().len())?;
    places.push(place)?;
    places.extend_from_slice(path.as_slice())?;
    Ok(PathList::of(places))
}
