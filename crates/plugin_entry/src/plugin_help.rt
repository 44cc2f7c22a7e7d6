//! What is said of a plugin in help and where words are refused.

/// What is said of a plugin beside its options. No clause rests on it.
#[derive(Clone, Copy)]
pub struct PluginHelp {
    /// How its words are written, in one line.
    pub usage: &'static str,
    /// What it does, in a few sentences.
    pub rule: &'static str,
}
