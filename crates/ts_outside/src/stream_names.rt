//! The name of a stream.
ghost use Rattle.std.specs.Prelude.{◌≡◌};
ghost use Rattle.std.specs.Option.{option_copied};
ghost use Rattle.ts_outside.specs.Desk.{stream_name};

/// The name of a stream: the empty one where none was given.
pub(crate) fn stream<'a>(name: Option<&'a str>) -> &'a str
    ensures { result.now ≡ stream_name (option_copied name.entry) }
{
    name.unwrap_or("")
}
