//! What words of a command line mean.

use crate::service_list::ServiceList;

/// The services that words mean by the SDT in force.
#[derive(Drop)]
pub(crate) struct Meant {
    /// Their numbers, each once. A name that no service has is left out.
    pub(crate) services: ServiceList,
    /// Whether a word is a name, and no SDT is in force.
    pub(crate) unknown: bool,
}
