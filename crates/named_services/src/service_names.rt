//! The type, the provider and the name of a service, in the body of its service_descriptor.
ghost use Rattle.std.specs.Prelude.{◌≡◌, drop, option_map};
ghost use Rattle.named_services.specs.ServiceNames.{after_text, counted_text, name_in, provider_in, type_in};

/// service_type.
pub fn type_in(body: Option<&[u8]>) -> Option<u8>
    ensures { result ≡ type_in (option_map (λ b. b.now) body.entry) }
{
    let (kind, _) = body?.split_first()?;
    Some(*kind)
}

/// service_provider_name.
pub fn provider_in(body: Option<&[u8]>) -> Option<&[u8]>
    ensures { option_map (λ b. b.now) result ≡ provider_in (option_map (λ b. b.now) body.entry) }
{
    counted_text(behind_first(body?))
}

/// service_name.
pub fn name_in(body: Option<&[u8]>) -> Option<&[u8]>
    ensures { option_map (λ b. b.now) result ≡ name_in (option_map (λ b. b.now) body.entry) }
{
    counted_text(after_text(behind_first(body?)))
}

// The bytes after the first one.
fn behind_first(bytes: &[u8]) -> &[u8]
    ensures { result.now ≡ drop 1 bytes.now }
{
    match bytes.split_first() {
        Some((_, rest)) => rest,
        None => bytes,
    }
}

// The bytes after a length of one byte, if all are there.
fn counted_text(bytes: &[u8]) -> Option<&[u8]>
    ensures { option_map (λ b. b.now) result ≡ counted_text bytes.now }
{
    let (count, rest) = bytes.split_first()?;
    let count = usize::from(*count);
    if count <= rest.len() {
        Some(&rest[..count])
    } else {
        None
    }
}

// The bytes after these.
fn after_text(bytes: &[u8]) -> &[u8]
    ensures { result.now ≡ after_text bytes.now }
{
    let Some((count, rest)) = bytes.split_first() else {
        return bytes;
    };
    let count = usize::from(*count);
    if count <= rest.len() {
        &rest[count..]
    } else {
        &[]
    }
}
