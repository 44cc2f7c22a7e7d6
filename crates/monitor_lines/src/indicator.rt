//! The indicators of errors.

/// An indicator of errors (ETSI TR 101 290, 5.2.1 to 5.2.3).
#[derive(Clone, Copy, PartialEq, Eq)]
pub enum Indicator {
    /// 1.3 PAT_error.
    Pat,
    /// 1.4 Continuity_count_error.
    Counter,
    /// 1.5 PMT_error.
    Pmt,
    /// 1.6 PID_error.
    Pid,
    /// 2.1 Transport_error.
    Transport,
    /// 2.2 CRC_error.
    Crc,
    /// 2.3 PCR_error.
    Pcr,
    /// 2.4 PCR_accuracy_error.
    Accuracy,
    /// 2.5 PTS_error.
    Pts,
    /// 2.6 CAT_error.
    Cat,
    /// 3.1 NIT_error.
    Nit,
    /// 3.4 Unreferenced_PID.
    Unreferenced,
    /// 3.5 SDT_error.
    Sdt,
    /// 3.6 EIT_error.
    Eit,
    /// 3.7 RST_error.
    Rst,
    /// 3.8 TDT_error.
    Tdt,
}

impl Indicator {
    ghost use Rattle.std.specs.Prelude.{◌≡◌};
    ghost use Rattle.monitor_lines.specs.Indicators.{priority_of, title_of};

    /// Its number and its name.
    pub fn title(self) -> &'static str
        ensures { result.now ≡ title_of self }
    {
        match self {
            Indicator::Pat => "1.3 PAT_error",
            Indicator::Counter => "1.4 Continuity_count_error",
            Indicator::Pmt => "1.5 PMT_error",
            Indicator::Pid => "1.6 PID_error",
            Indicator::Transport => "2.1 Transport_error",
            Indicator::Crc => "2.2 CRC_error",
            Indicator::Pcr => "2.3 PCR_error",
            Indicator::Accuracy => "2.4 PCR_accuracy_error",
            Indicator::Pts => "2.5 PTS_error",
            Indicator::Cat => "2.6 CAT_error",
            Indicator::Nit => "3.1 NIT_error",
            Indicator::Unreferenced => "3.4 Unreferenced_PID",
            Indicator::Sdt => "3.5 SDT_error",
            Indicator::Eit => "3.6 EIT_error",
            Indicator::Rst => "3.7 RST_error",
            Indicator::Tdt => "3.8 TDT_error",
        }
    }

    /// Its priority, 1 to 3.
    pub fn priority(self) -> u8
        ensures { result ≡ priority_of self }
    {
        match self {
            Indicator::Pat | Indicator::Counter | Indicator::Pmt | Indicator::Pid => 1,
            Indicator::Transport
            | Indicator::Crc
            | Indicator::Pcr
            | Indicator::Accuracy
            | Indicator::Pts
            | Indicator::Cat => 2,
            Indicator::Nit
            | Indicator::Unreferenced
            | Indicator::Sdt
            | Indicator::Eit
            | Indicator::Rst
            | Indicator::Tdt => 3,
        }
    }
}
