//! A change of the services in force, with the position of its packet.
use crate::service_count::ServiceCount;
use plugin_notes::PacketNote;

/// The services in force from a packet on that changed the tables in force.
#[derive(Drop)]
pub struct Change {
    /// The position of the packet.
    pub at: u64,
    /// The services in force with it.
    pub services: Vec<ServiceCount>,
}

impl PacketNote for Change {
    ghost use Rattle.plug_analyze.specs.ServicesKept.{place_of_change};

    ghost place = { place_of_change };

    fn at(&self) -> u64 {
        self.at
    }
}
