//! The settings of `compact` and `rmorphan`.
//!
//! They have one reader and one row of options. Each of the two has a struct of its own around these settings, since a
//! type implements `PluginSettings` once.

/// Settings of `compact` and of `rmorphan`, which output packets a window of packets later.
#[derive(Drop)]
pub struct WindowConf {
    /// How many packets the window has, 1 to 100,000.
    pub window: u64,
    /// Whether a null packet is put in the place if no packet is output; else the place is dropped.
    pub stuffing: bool,
}
