//! A value for each PID (ISO/IEC 13818-1, 2.4.3.2: a PID has 13 bits).
ghost use Rattle.std.specs.Prelude.{◌≡◌, ℕ, ◌<◌, length, replicate, slice_set, slice_index_or, IfOk};

use crate::numbers::PID_COUNT;
use std::alloc::{AllocError, Global};
use std::marker::Model;

/// A value for each PID, looked up and not searched. Contracts see the list of the values, by PID.
#[derive(Drop)]
pub struct PidRow<T: Drop> {
    values: Vec<T>,
}

impl<T: Drop> Model for PidRow<T> {
    ghost use Rattle.std.specs.Prelude.{◌≡◌, List, length};
    ghost use Rattle.ts_packet.specs.declared.numbers.TheConstants.{PID_COUNT};

    ghost Value = { List T };

    ghost view = { λ r. r.values.items };

    ghost invariant = { λ r. length r.values.items ≡ PID_COUNT };
}

impl<T: Copy> PidRow<T> {
    /// The same value for each PID. It takes room for 8192 of them.
    pub fn filled(alloc: Global, value: T) -> Result<PidRow<T>, AllocError>
        ensures values { IfOk result (λ row. row ≡ replicate PID_COUNT value) }
        ensures each { IfOk result (λ row. (pid : ℕ) → slice_index_or row pid value ≡ value) }
    {
        let values = filled(alloc, value)?;
        Ok(PidRow { values })
    }

    /// Of each PID the value that a function has for it. It takes room for 8192 of them.
    pub fn of<F: Fn(u16) -> T>(alloc: Global, f: F) -> Result<PidRow<T>, AllocError>
        requires { (pid : ℕ) → pid < PID_COUNT → F.pre f pid }
        ensures { IfOk result (λ row. (pid : ℕ) (other : T) → pid < PID_COUNT → F.post f pid (slice_index_or row pid other)) }
    {
        let values = values_of(alloc, f)?;
        Ok(PidRow { values })
    }

    /// The value of a PID.
    #[inline]
    pub fn get(&self, pid: u16) -> T
        requires { pid < PID_COUNT }
        ensures { (other : T) → result ≡ slice_index_or self.now pid other }
    {
        self.values[usize::from(pid)]
    }

    /// The value of a PID; another one where the number is no PID.
    #[inline]
    pub fn get_or(&self, pid: u16, other: T) -> T
        ensures { result ≡ slice_index_or self.now pid other }
    {
        match self.values.get(usize::from(pid)) {
            Some(value) => *value,
            None => other,
        }
    }

    /// Gives a PID another value.
    #[inline]
    pub fn set(&mut self, pid: u16, value: T)
        requires { pid < PID_COUNT }
        ensures values { self.new ≡ slice_set self.old pid value }
        ensures whole { length self.old ≡ PID_COUNT }
    {
        self.values[usize::from(pid)] = value;
    }

    /// Gives each PID the same value.
    pub fn fill(&mut self, value: T)
        ensures values { self.new ≡ replicate PID_COUNT value }
        ensures each { (pid : ℕ) → slice_index_or self.new pid value ≡ value }
    {
        fill(&mut self.values, value);
    }
}

/// As many copies of a value as there are PIDs.
fn filled<T: Copy>(alloc: Global, value: T) -> Result<Vec<T>, AllocError>
    ensures { IfOk result (λ values. values.items ≡ replicate PID_COUNT value) }
{
    let mut values = Vec::with_capacity(alloc, usize::from(PID_COUNT))?;
    for _ in 0..PID_COUNT {
        values.push(value)?;
    }
    Ok(values)
}

/// The values of a function for all PIDs.
fn values_of<T: Drop, F: Fn(u16) -> T>(alloc: Global, f: F) -> Result<Vec<T>, AllocError>
    requires { (pid : ℕ) → pid < PID_COUNT → F.pre f pid }
    ensures whole { IfOk result (λ values. length values.items ≡ PID_COUNT) }
    ensures each { IfOk result (λ values. (pid : ℕ) (other : T) → pid < PID_COUNT → F.post f pid (slice_index_or values.items pid other)) }
{
    let mut values = Vec::with_capacity(alloc, usize::from(PID_COUNT))?;
    for pid in 0..PID_COUNT {
        values.push(f(pid))?;
    }
    Ok(values)
}

/// Writes the same value to each place.
fn fill<T: Copy>(values: &mut [T], value: T)
    ensures { values.new ≡ replicate (length values.old) value }
{
    for place in values.iter_mut() {
        *place = value;
    }
}
