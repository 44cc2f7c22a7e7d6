//! The settings of `rmorphan`.

use crate::window_conf::WindowConf;

/// Settings of `rmorphan`.
#[derive(Drop)]
pub struct RmorphanConf {
    pub window: WindowConf,
}
