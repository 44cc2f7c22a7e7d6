//! The settings of `zap`.

use crate::kept::Kept;
use crate::service_conf::ServiceConf;

/// Settings of `zap`.
#[derive(Drop)]
pub struct ZapConf {
    pub service: ServiceConf,
    /// What is kept beside the services.
    pub kept: Kept,
}
