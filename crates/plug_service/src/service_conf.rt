//! The settings of `zap` and `svremove`.
//!
//! Each of the two has a struct of its own around these, since a type implements `PluginSettings` once.

use named_services::ServiceWords;

/// Settings of `zap` and of `svremove`.
#[derive(Drop)]
pub struct ServiceConf {
    /// The words that say which services are meant; 1 to 62 of them.
    pub services: ServiceWords,
    /// A packet that does not pass becomes a null packet instead of being dropped.
    pub stuffing: bool,
}
