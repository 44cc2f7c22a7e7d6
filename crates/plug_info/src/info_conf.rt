//! The settings of `info`.

/// Settings of `info`.
#[derive(Drop)]
pub struct InfoConf {
    /// Whether the summary is one JSON object on one line.
    pub json: bool,
}
