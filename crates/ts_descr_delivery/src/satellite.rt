//! The fields of a `satellite_delivery_system_descriptor` (ETSI EN 300 468, 6.2.13.2).

ghost use Rattle.std.specs.Prelude.{◌<◌, ◌^◌};

use std::alloc::{AllocError, Global};
use ts_descr::Fields;
use ts_fields::FieldValue;

/// How a satellite carries a transport stream (ETSI EN 300 468, 6.2.13.2).
#[derive(Drop)]
pub struct Satellite {
    /// `frequency`, 8 decimal digits, in units of 10 kHz.
    pub frequency: u32,
    /// `orbital_position`, 4 decimal digits, in tenths of a degree.
    pub orbital_position: u16,
    /// `west_east_flag`, 1 bit: 0 for a western position, 1 for an eastern one.
    pub west_east_flag: u8,
    /// `polarization`, 2 bits.
    pub polarization: u8,
    /// `roll_off`, 2 bits.
    pub roll_off: u8,
    /// `modulation_system`, 1 bit.
    pub modulation_system: u8,
    /// `modulation_type`, 2 bits.
    pub modulation_type: u8,
    /// `symbol_rate`, 7 decimal digits, in units of 100 symbols per second.
    pub symbol_rate: u32,
    /// `FEC_inner`, 4 bits.
    pub fec_inner: u8,
    ghost widths: { (frequency < 10 ^ 8) × (orbital_position < 10 ^ 4) × (west_east_flag < 2 ^ 1)
        × (polarization < 2 ^ 2) × (roll_off < 2 ^ 2) × (modulation_system < 2 ^ 1)
        × (modulation_type < 2 ^ 2) × (symbol_rate < 10 ^ 7) × (fec_inner < 2 ^ 4) },
}

impl Fields for Satellite {
    ghost use Rattle.ts_pages.specs.DeliveryPages.{satellite};
    ghost use Rattle.ts_descr_delivery.specs.DeliveryFields.{satellite_fields};

    ghost rows = { satellite.head };

    ghost fields = { satellite_fields };

    fn of(_alloc: Global, values: &[FieldValue]) -> Result<Option<Satellite>, AllocError> {
        let Some((beam, behind)) = Beam::of(values) else {
            return Ok(None);
        };
        let Some(signal) = Signal::of(behind) else {
            return Ok(None);
        };
        Ok(Some(Satellite {
            frequency: beam.frequency,
            orbital_position: beam.orbital_position,
            west_east_flag: beam.west_east_flag,
            polarization: beam.polarization,
            roll_off: signal.roll_off,
            modulation_system: signal.modulation_system,
            modulation_type: signal.modulation_type,
            symbol_rate: signal.symbol_rate,
            fec_inner: signal.fec_inner,
        }))
    }

    #[tactic(auto, unfolding(ts_fields::specs::Fitting::fits_uncounted))]
    fn values(&self, alloc: Global) -> Result<Vec<FieldValue>, AllocError> {
        Ok(vec![in alloc;
            FieldValue::Number(u64::from(self.frequency)),
            FieldValue::Number(u64::from(self.orbital_position)),
            FieldValue::Number(u64::from(self.west_east_flag)),
            FieldValue::Number(u64::from(self.polarization)),
            FieldValue::Number(u64::from(self.roll_off)),
            FieldValue::Number(u64::from(self.modulation_system)),
            FieldValue::Number(u64::from(self.modulation_type)),
            FieldValue::Number(u64::from(self.symbol_rate)),
            FieldValue::Number(u64::from(self.fec_inner)),
        ]?)
    }
}

/// The first fields: frequency, position in orbit and polarization.
#[derive(Drop)]
struct Beam {
    frequency: u32,
    orbital_position: u16,
    west_east_flag: u8,
    polarization: u8,
    ghost widths: { (frequency < 10 ^ 8) × (orbital_position < 10 ^ 4)
        × (west_east_flag < 2 ^ 1) × (polarization < 2 ^ 2) },
}

impl Beam {
    ghost use Rattle.std.specs.Prelude.{◌≡◌, ◌++◌, drop, map, option_map, true, Some, IfSome};
    ghost use Rattle.ts_fields.specs.Fitting.{fits};
    ghost use Rattle.ts_fields.specs.Layout.{held};
    ghost use Rattle.ts_pages.specs.DeliveryPages.{satellite};
    ghost use Rattle.ts_descr_delivery.specs.DeliveryFields.{beam_fields};

    /// The first fields of the values, and the values after them.
    #[tactic(auto, unfolding(ts_fields::specs::Fitting::fits))]
    fn of(values: &[FieldValue]) -> Option<(Beam, &[FieldValue])>
        requires { fits satellite.head (map held values.now) ≡ true }
        ensures held { option_map (λ x. beam_fields x.0 ++ map held x.1.now) result
            ≡ Some (map held values.now) }
        ensures behind { IfSome result (λ x. fits (drop 4 satellite.head) (map held x.1.now) ≡ true) }
    {
        let [
            FieldValue::Number(frequency),
            FieldValue::Number(orbital_position),
            FieldValue::Number(west_east_flag),
            FieldValue::Number(polarization),
            behind @ ..,
        ] = values
        else {
            return None;
        };
        let beam = Beam {
            frequency: *frequency as u32,
            orbital_position: *orbital_position as u16,
            west_east_flag: *west_east_flag as u8,
            polarization: *polarization as u8,
        };
        Some((beam, behind))
    }
}

/// The last fields: modulation, symbol rate and inner FEC.
#[derive(Drop)]
struct Signal {
    roll_off: u8,
    modulation_system: u8,
    modulation_type: u8,
    symbol_rate: u32,
    fec_inner: u8,
    ghost widths: { (roll_off < 2 ^ 2) × (modulation_system < 2 ^ 1)
        × (modulation_type < 2 ^ 2) × (symbol_rate < 10 ^ 7) × (fec_inner < 2 ^ 4) },
}

impl Signal {
    ghost use Rattle.std.specs.Prelude.{◌≡◌, drop, map, option_map, true, Some};
    ghost use Rattle.ts_fields.specs.Fitting.{fits};
    ghost use Rattle.ts_fields.specs.Layout.{held};
    ghost use Rattle.ts_pages.specs.DeliveryPages.{satellite};
    ghost use Rattle.ts_descr_delivery.specs.DeliveryFields.{signal_fields};

    /// The last fields of the values.
    #[tactic(auto, unfolding(ts_fields::specs::Fitting::fits))]
    fn of(values: &[FieldValue]) -> Option<Signal>
        requires { fits (drop 4 satellite.head) (map held values.now) ≡ true }
        ensures { option_map signal_fields result ≡ Some (map held values.now) }
    {
        let [
            FieldValue::Number(roll_off),
            FieldValue::Number(modulation_system),
            FieldValue::Number(modulation_type),
            FieldValue::Number(symbol_rate),
            FieldValue::Number(fec_inner),
        ] = values
        else {
            return None;
        };
        Some(Signal {
            roll_off: *roll_off as u8,
            modulation_system: *modulation_system as u8,
            modulation_type: *modulation_type as u8,
            symbol_rate: *symbol_rate as u32,
            fec_inner: *fec_inner as u8,
        })
    }
}
