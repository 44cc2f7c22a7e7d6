//! The descriptors of delivery systems as values with a field for each name. Descriptors come in and values go out,
//! or the other way. The layer above rests on `DeliveryDescr::read` and `DeliveryDescr::write`, by the pages of
//! `ts_pages`.
#![tactic(auto)]

mod cable;
mod delivery_descr;
mod satellite;
mod terrestrial;

pub use cable::Cable;
pub use delivery_descr::DeliveryDescr;
pub use satellite::Satellite;
pub use terrestrial::Terrestrial;
pub use ts_descr::DescrRefusal;
