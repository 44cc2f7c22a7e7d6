//! The version of an edited table.

ghost use Rattle.std.specs.Prelude.{◌≡◌, ◌<◌};
ghost use Rattle.plug_edit.specs.Versions;
ghost use Rattle.plug_edit.specs.Versions.{IsVersion, edited_version};

/// The version of an edited table: the one that is given, or else its own, which is incremented if that is asked for; after
/// 31 comes 0.
pub fn version_after(given: Option<u64>, increment: bool, version: u8) -> u8
    requires valid { IsVersion given }
    requires in_range { version < 32 }
    ensures version { result ≡ edited_version given increment version }
    ensures in_range { result < 32 }
{
    match given {
        Some(given) => given as u8,
        None => {
            if increment {
                (version + 1) % 32
            } else {
                version
            }
        }
    }
}

/// Whether at most one of the two options of the version is given.
pub fn versions_agree(given: Option<u64>, increment: bool) -> bool
    ensures { result ≡ Versions.versions_agree given increment }
{
    !(given.is_some() && increment)
}
