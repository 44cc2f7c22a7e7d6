//! Loops of descriptors.

ghost use Rattle.std.specs.Prelude.{◌≡◌, ◌+◌, ◌++◌, ◌<◌, ◌≤◌, length, take, drop, slice_index, All, IfOk, IfNone, IfSome, OnOk, OnSome};
ghost use Rattle.ts_bits.specs.declared.descriptor_loop.LoopFault.TheVariants.{NoMemory};
ghost use Rattle.ts_bits.specs.DescriptorLoop.{IsLoopOf};
ghost use Rattle.ts_bits.specs.TaggedBody.{IsDescriptor, descriptor_bytes, loop_bytes};

use crate::descriptor::Descriptor;
use std::alloc::{AllocError, AllocFailed, Global};
use std::marker::Model;

/// Why bytes are not a loop of descriptors.
#[derive(Debug, Clone, Copy, PartialEq, Eq)]
pub enum LoopFault {
    /// The descriptor that begins at `offset` passes the end.
    Cut { offset: usize },
    /// Out of memory.
    NoMemory,
}

impl From<AllocError> for LoopFault {
    ghost from_gives = { λ _ fault. fault ≡ NoMemory };

    fn from(_error: AllocError) -> LoopFault {
        LoopFault::NoMemory
    }
}

impl<T: Drop> From<AllocFailed<T>> for LoopFault {
    ghost from_gives = { λ _ fault. fault ≡ NoMemory };

    fn from(_error: AllocFailed<T>) -> LoopFault {
        LoopFault::NoMemory
    }
}

/// Descriptors in their order.
#[derive(Drop)]
pub struct DescriptorList {
    descriptors: Vec<Descriptor>,
}

// Clauses see the list of the descriptors.
impl Model for DescriptorList {
    ghost use Rattle.std.specs.Prelude.{List};
    ghost use Rattle.ts_bits.specs.TaggedBody.{TaggedBody};

    ghost Value = { List TaggedBody };

    ghost view = { λ l. l.descriptors.items };
}

impl DescriptorList {
    /// The list of these descriptors. Allocates nothing.
    pub fn of(descriptors: Vec<Descriptor>) -> DescriptorList
        ensures { result ≡ descriptors.items }
    {
        DescriptorList { descriptors }
    }

    /// The descriptors in order.
    pub fn as_slice(&self) -> &[Descriptor]
        ensures { result.now ≡ self.now }
    {
        &self.descriptors
    }

    /// A copy of the list.
    pub fn copy(&self) -> Result<DescriptorList, AllocError>
        ensures { IfOk result (λ list. list ≡ self.now) }
    {
        let mut descriptors = Vec::new(*self.descriptors.allocator());
        let held = self.as_slice();
        for descriptor in held {
            descriptors.push(descriptor.copy()?)?;
        }
        Ok(DescriptorList { descriptors })
    }

    /// The descriptors as a `Vec`.
    pub fn into_vec(self) -> Vec<Descriptor>
        ensures { result.items ≡ self }
    {
        self.descriptors
    }
}

/// Reads descriptors one after another, up to the end of `from` (ISO/IEC 13818-1, 2.6).
pub fn read_loop(alloc: Global, from: &[u8]) -> Result<DescriptorList, LoopFault>
    ensures { IsLoopOf from.now (λ list. list) result }
{
    let mut descriptors = Vec::new(alloc);
    let mut offset = 0;
    while offset < from.len() {
        let rest = &from[offset..];
        let Some(body) = first_body(rest) else {
            return Err(LoopFault::Cut { offset });
        };
        let descriptor = Descriptor::new(alloc, rest[0], body)?;
        descriptors.push(descriptor)?;
        offset += 2 + body.len();
    }
    Ok(DescriptorList { descriptors })
}

/// The body of the descriptor at the beginning of `rest`; none where the descriptor passes the end.
fn first_body(rest: &[u8]) -> Option<&[u8]>
    ensures passes { IfNone result (length rest.now < 2 + slice_index rest.now 1) }
    ensures within { OnSome result (2 + slice_index rest.now 1 ≤ length rest.now) }
    ensures begins { IfSome result (λ body. body.now ≡ take (slice_index rest.now 1) (drop 2 rest.now)) }
{
    let size = usize::from(*rest.get(1)?);
    rest.get(2..2 + size)
}

/// The bytes of descriptors one after another, as `read_loop` reads them.
pub fn write_loop(alloc: Global, descriptors: &[Descriptor]) -> Result<Vec<u8>, AllocError>
    ensures written { IfOk result (λ bytes. bytes.items ≡ loop_bytes descriptors.now) }
    ensures fit { OnOk result (All (λ d. IsDescriptor d) descriptors.now) }
{
    let mut bytes = Vec::new(alloc);
    for descriptor in descriptors {
        put_descriptor(&mut bytes, descriptor)?;
    }
    Ok(bytes)
}

/// Appends the bytes of one descriptor.
fn put_descriptor(bytes: &mut Vec<u8>, descriptor: &Descriptor) -> Result<(), AllocError>
    ensures written { OnOk result (bytes.new.items ≡ bytes.old.items ++ descriptor_bytes descriptor.now) }
    ensures fits { IsDescriptor descriptor.now }
{
    let body = descriptor.body();
    bytes.push(descriptor.tag())?;
    bytes.push(body.len() as u8)?;
    bytes.extend_from_slice(body)?;
    Ok(())
}
