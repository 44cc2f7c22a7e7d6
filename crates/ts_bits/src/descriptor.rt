//! One descriptor.

ghost use Rattle.std.specs.Prelude.{◌≡◌, ◌≤◌, length, IfOk};
ghost use Rattle.ts_bits.specs.TaggedBody.{IsDescriptor};

use std::alloc::{AllocError, Global};
use std::marker::Model;

/// A descriptor: a tag and the at most 255 bytes after the length (ISO/IEC 13818-1, 2.6). The layer above
/// reads what the bytes mean.
#[derive(Drop)]
pub struct Descriptor {
    tag: u8,
    body: Vec<u8>,
}

// Clauses see a descriptor as its tag and the list of its body's bytes.
impl Model for Descriptor {
    ghost use Rattle.ts_bits.specs.TaggedBody.{TaggedBody, IsDescriptor};

    ghost Value = { TaggedBody };

    ghost view = { λ d. record { tag = d.tag; body = d.body.items } };

    ghost invariant = { λ d. IsDescriptor (record { tag = d.tag; body = d.body.items }) };
}

impl Descriptor {
    /// A descriptor with this tag and these bytes after its length.
    pub fn new(alloc: Global, tag: u8, body: &[u8]) -> Result<Descriptor, AllocError>
        requires { length body.now ≤ 255 }
        ensures { IfOk result (λ d. d ≡ record { tag = tag; body = body.now }) }
    {
        let body = Vec::from_slice(alloc, body)?;
        Ok(Descriptor { tag, body })
    }

    /// The tag, 0 to 255.
    pub fn tag(&self) -> u8
        ensures { result ≡ self.now.tag }
    {
        self.tag
    }

    /// The bytes after the length.
    pub fn body(&self) -> &[u8]
        ensures body { result.now ≡ self.now.body }
        ensures fits { IsDescriptor self.now }
    {
        &self.body
    }

    /// A copy of the descriptor.
    pub fn copy(&self) -> Result<Descriptor, AllocError>
        ensures { IfOk result (λ d. d ≡ self.now) }
    {
        Descriptor::new(*self.body.allocator(), self.tag, &self.body)
    }
}
