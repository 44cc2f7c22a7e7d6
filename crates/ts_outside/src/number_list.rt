//! A list of numbers.
ghost use Rattle.std.specs.Prelude.{◌≡◌, ◌==◌, ◌↔◌, IsTrue, Contains, IfOk};
ghost use Rattle.std.specs.List.{list_any};

use std::alloc::AllocError;
use std::marker::Model;

/// Numbers; contracts see the list of them. In a `FailPlan` they are the calls that fail, counted from 1.
#[derive(Drop)]
pub struct NumberList {
    numbers: Vec<u64>,
}

impl Model for NumberList {
    ghost use Rattle.std.specs.Prelude.{List, ℕ};

    ghost Value = { List ℕ };

    ghost view = { λ l. l.numbers.items };
}

impl NumberList {
    /// The list of these numbers. Allocates nothing.
    pub fn of(numbers: Vec<u64>) -> NumberList
        ensures { result ≡ numbers.items }
    {
        NumberList { numbers }
    }

    /// The numbers as a slice.
    pub fn as_slice(&self) -> &[u64]
        ensures { result.now ≡ self.now }
    {
        self.numbers.as_slice()
    }

    /// The numbers as a `Vec`. Allocates nothing.
    pub fn into_vec(self) -> Vec<u64>
        ensures { result.items ≡ self }
    {
        let NumberList { numbers } = self;
        numbers
    }

    /// A copy of the list.
    pub fn copy(&self) -> Result<NumberList, AllocError>
        ensures { IfOk result (λ l. l ≡ self.now) }
    {
        let numbers = Vec::from_slice(*self.numbers.allocator(), self.numbers.as_slice())?;
        Ok(NumberList { numbers })
    }

    /// Whether a number is in the list.
    pub fn has(&self, number: u64) -> bool
        ensures member { IsTrue result ↔ Contains self.now number }
        ensures value { result ≡ list_any (λ n. n == number) self.now }
    {
        self.numbers.as_slice().contains(&number)
    }
}
