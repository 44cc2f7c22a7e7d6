//! The rules of a command line.
ghost use Rattle.std.specs.Prelude.{◌≡◌};
ghost use Rattle.plugin_options.specs.RuleText.{rule_text};

/// The rules of a command line, in the order in which a segment is checked against them.
#[derive(Drop, Debug, Clone, Copy, PartialEq, Eq)]
pub enum WordsRule {
    /// A second `-I`, or a second `-O`.
    Twice,
    /// No name follows `-I`, `-P` or `-O`.
    NoName,
    /// There is no plugin, input or output of this name.
    UnknownPlugin,
    /// It is the 63rd plugin.
    TooMany,
    /// The options are not options of the segment, are given twice, or lack their value; or there are
    /// more operands than it takes.
    Shape,
    /// An option or operand is missing that the segment must have.
    Missing,
    /// A value does not have its form, or is out of its range.
    Value,
    /// The options cannot be combined.
    Conflict,
}

impl WordsRule {
    /// The text that is printed for a broken rule.
    pub fn text(self) -> &'static str
        ensures { result.now ≡ rule_text self }
    {
        match self {
            WordsRule::Twice => "second input or output",
            WordsRule::NoName => "no name",
            WordsRule::UnknownPlugin => "unknown plugin",
            WordsRule::TooMany => "too many plugins",
            WordsRule::Shape => "bad options",
            WordsRule::Missing => "missing option",
            WordsRule::Value => "bad value",
            WordsRule::Conflict => "options in conflict",
        }
    }
}
