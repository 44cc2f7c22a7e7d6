//! The settings of `svremove`.

use crate::service_conf::ServiceConf;

/// Settings of `svremove`.
#[derive(Drop)]
pub struct SvremoveConf {
    pub service: ServiceConf,
    /// Their EIT sections and their items in the NIT of the actual network and in BATs are removed too.
    pub everywhere: bool,
}
