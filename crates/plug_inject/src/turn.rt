//! Whose turn it is, of several groups of sections.
ghost use Rattle.std.specs.Prelude.{◌≡◌, ◌<◌, ◌^◌, unwrap_or};
ghost use Rattle.std.specs.List.{position};
ghost use Rattle.plug_inject.specs.Schedule.{chosen, is_due, is_oldest};

/// What counts for the turn of a group of sections. The packets that were put in are numbered from 0.
#[derive(Drop, Clone, Copy)]
pub struct Turn {
    /// How far the packets with which two of its sections begin are apart at least, where other sections can be given
    /// in between.
    pub distance: u64,
    /// The number of the packet that began its last section.
    pub last: Option<u64>,
    /// How many of its sections were begun.
    pub count: u64,
}

impl Turn {
    /// Whether the packet with this number may begin a section of the group.
    pub(crate) fn is_due(&self, number: u64) -> bool
        requires { number < 2 ^ 63 }
        ensures { result ≡ is_due number self.now }
    {
        match self.last {
            Some(last) => last.saturating_add(self.distance) <= number,
            None => true,
        }
    }

    /// The number of the packet that began its last section, or 0.
    fn last_or_first(&self) -> u64
        ensures { result ≡ unwrap_or self.now.last 0 }
    {
        self.last.unwrap_or(0)
    }
}

/// Whether the last section of no group was begun before that of this one.
fn is_oldest(turns: &[Turn], turn: &Turn) -> bool
    ensures { result ≡ is_oldest turns.now turn.now }
{
    let last = turn.last_or_first();
    turns.iter().all(|other| last <= other.last_or_first())
}

/// The place of the first group of which the packet with this number may begin a section.
fn first_due(turns: &[Turn], number: u64) -> Option<usize>
    requires { number < 2 ^ 63 }
    ensures { result ≡ position (is_due number) turns.now }
{
    turns.iter().position(|turn| turn.is_due(number))
}

/// The place of the group whose last section was begun before those of the others.
fn first_oldest(turns: &[Turn]) -> Option<usize>
    ensures { result ≡ position (is_oldest turns.now) turns.now }
{
    turns.iter().position(|turn| is_oldest(turns, turn))
}

/// The place of the group whose section the packet with this number begins.
pub(crate) fn chosen(turns: &[Turn], number: u64) -> usize
    requires { number < 2 ^ 63 }
    ensures { result ≡ chosen turns.now number }
{
    match first_due(turns, number) {
        Some(place) => place,
        None => first_oldest(turns).unwrap_or(0),
    }
}
