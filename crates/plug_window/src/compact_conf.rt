//! The settings of `compact`.

use crate::window_conf::WindowConf;

/// Settings of `compact`.
#[derive(Drop)]
pub struct CompactConf {
    pub window: WindowConf,
}
