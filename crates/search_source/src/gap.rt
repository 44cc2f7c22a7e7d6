//! Bytes that are left out before a packet.
ghost use Rattle.std.specs.Prelude.{◌≡◌, ◌<◌, ◌++◌, None, true, option_to_list};
ghost use Rattle.search_source.specs.Gaps.{gap_before};

/// Bytes that are left out before a packet. Both numbers saturate at `u64::MAX`.
#[derive(Clone, Copy, Debug, PartialEq, Eq)]
pub struct Gap {
    /// The number of the packet behind it, from 0; so many packets are before it.
    pub before: u64,
    /// The number of bytes left out, of all bytes of the file, and not 0.
    pub bytes: u64,
}

/// The gap that was noted, or the one before the packet with this number, where so many bytes are left out before it.
pub(crate) fn noted_with(noted: Option<Gap>, number: u64, left: u64) -> Option<Gap>
    requires { 0 < left → noted ≡ None }
    ensures { option_to_list result ≡ option_to_list noted ++ gap_before number left }
{
    if left == 0 {
        return noted;
    }
    Some(Gap {
        before: number,
        bytes: left,
    })
}

/// Appends a gap, if there is one, and returns whether there was memory for it.
pub(crate) fn keep(gaps: &mut Vec<Gap>, gap: Option<Gap>) -> bool
    ensures { result ≡ true → gaps.new.items ≡ gaps.old.items ++ option_to_list gap }
{
    match gap {
        Some(gap) => gaps.push(gap).is_ok(),
        None => true,
    }
}
