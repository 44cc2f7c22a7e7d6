//! Which values `timestamps` shows, and how.

/// Which values are shown, and how.
#[derive(Clone, Copy, PartialEq, Eq)]
pub struct Shown {
    /// PCRs have lines.
    pub clocks: bool,
    /// PTSs have lines.
    pub presentation: bool,
    /// DTSs have lines.
    pub decoding: bool,
    /// The lines are numbers and names between commas, and there is no summary.
    pub csv: bool,
}

impl Shown {
    ghost use Rattle.std.specs.Prelude.{◌≡◌};
    ghost use Rattle.plug_times.specs.StampTexts.{shown_of};

    /// The values that are asked for; all of them where none is.
    pub fn of(pcr: bool, pts: bool, dts: bool, csv: bool) -> Shown
        ensures { result ≡ shown_of pcr pts dts csv }
    {
        let all = !(pcr || pts || dts);
        Shown {
            clocks: pcr || all,
            presentation: pts || all,
            decoding: dts || all,
            csv,
        }
    }
}
