//! The reader of the sections on the PID of a PMT.
use monitor_tables::SectionReader;
use plug_psi::Follows;
use std::alloc::{AllocError, Global};
use ts_packet::Packet;
use ts_section::Section;

/// Reads the sections of the packets that are taken on the PID of a PMT.
#[derive(Drop)]
pub struct PmtReader {
    reader: SectionReader,
}

/// The sections that come with a packet.
#[derive(Drop)]
pub struct CameSections {
    pub(crate) sections: Vec<Section>,
}

impl Follows for PmtReader {
    ghost use Rattle.monitor_services.specs.RowStands.{ReaderStands};
    ghost use Rattle.monitor_tables.specs.TableIds.{sections_with};
    ghost use Rattle.std.specs.Prelude.{◌≡◌};

    type Seed = ();

    type Input = ();

    type Told = CameSections;

    ghost stands = { λ seed it pid taken. ReaderStands it pid taken };

    ghost given = { λ pid taken packet input. Unit {0} };

    ghost tells = { λ seed pid taken packet told. told.sections.items ≡ sections_with pid taken packet };

    fn fresh(alloc: Global, _seed: &(), pid: u16) -> Result<PmtReader, AllocError> {
        let reader = SectionReader::new(alloc, pid)?;
        Ok(PmtReader { reader })
    }

    fn take(
        &mut self,
        _alloc: Global,
        _at: u64,
        _input: (),
        packet: &Packet,
    ) -> Result<CameSections, AllocError> {
        let sections = self.reader.read(packet)?;
        Ok(CameSections { sections })
    }
}
