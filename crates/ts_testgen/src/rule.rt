//! The kind of the packet with a number.
ghost use Rattle.std.specs.Prelude.{◌≡◌, ◌<◌, ◌/◌, ◌%◌, ◌^◌, slice_index};
ghost use Rattle.ts_testgen.specs.Counters.{counted_pids};
ghost use Rattle.ts_testgen.specs.Rules.{rule_at, pid_by};

/// The kind of a packet of the generated stream.
#[derive(Clone, Copy, PartialEq, Eq)]
pub enum Rule {
    /// The PAT.
    Pat,
    /// The PMT of service 1.
    FirstPmt,
    /// The PMT of service 2.
    SecondPmt,
    /// The SDT of the actual transport stream.
    Sdt,
    /// A packet with a PCR and a payload.
    Clock,
    /// The null packet.
    Null,
    /// A packet with only a payload, on one of four PIDs.
    Payload,
}

impl Rule {
    /// The first rule that holds at the number.
    #[tactic(auto, unfolding(crate::specs::Rules::rule_at))]
    pub(crate) fn at(i: u64) -> Rule
        ensures { result ≡ rule_at i }
    {
        match i % 50 {
            0 => Rule::Pat,
            1 => Rule::FirstPmt,
            2 => Rule::SecondPmt,
            3 => Rule::Sdt,
            4 => Rule::Clock,
            _ if i % 10 == 9 => Rule::Null,
            _ => Rule::Payload,
        }
    }

    /// The index of its packet's PID in the counters; `r` is the mix.
    pub(crate) fn place(self, r: u64) -> usize
        ensures place { slice_index counted_pids result ≡ pid_by self r }
        ensures range { result < 9 }
    {
        match self {
            Rule::Pat => 0,
            Rule::FirstPmt => 1,
            Rule::SecondPmt => 2,
            Rule::Sdt => 3,
            Rule::Clock => 4,
            Rule::Null => 8,
            Rule::Payload => 4 + usize::from(component(r)),
        }
    }
}

/// Which of the four PIDs from 256 on the payload packet with the mix `r` is on.
pub(crate) fn component(r: u64) -> u8
    ensures component { result ≡ r / 2 ^ 33 % 4 }
    ensures range { result < 4 }
{
    ((r >> 33) & 3) as u8
}
