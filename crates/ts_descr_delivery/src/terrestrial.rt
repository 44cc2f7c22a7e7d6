//! The fields of a `terrestrial_delivery_system_descriptor` (ETSI EN 300 468, 6.2.13.4).

ghost use Rattle.std.specs.Prelude.{◌<◌, ◌^◌};

use std::alloc::{AllocError, Global};
use ts_descr::Fields;
use ts_fields::FieldValue;

/// How a terrestrial transmitter carries a transport stream (ETSI EN 300 468, 6.2.13.4).
#[derive(Drop)]
pub struct Terrestrial {
    /// `centre_frequency`, 32 bits, in units of 10 Hz.
    pub centre_frequency: u32,
    /// `bandwidth`, 3 bits.
    pub bandwidth: u8,
    /// `priority`, 1 bit.
    pub priority: u8,
    /// `time_slicing`, 1 bit.
    pub time_slicing: u8,
    /// `MPE_FEC`, 1 bit.
    pub mpe_fec: u8,
    /// `constellation`, 2 bits.
    pub constellation: u8,
    /// `hierarchy`, 3 bits.
    pub hierarchy: u8,
    /// `code_rate_HP`, 3 bits.
    pub code_rate_hp: u8,
    /// `code_rate_LP`, 3 bits.
    pub code_rate_lp: u8,
    /// `guard_interval`, 2 bits.
    pub guard_interval: u8,
    /// `transmission_mode`, 2 bits.
    pub transmission_mode: u8,
    /// `other_frequency`, 1 bit.
    pub other_frequency: u8,
    ghost widths: { (bandwidth < 2 ^ 3) × (priority < 2 ^ 1) × (time_slicing < 2 ^ 1)
        × (mpe_fec < 2 ^ 1) × (constellation < 2 ^ 2) × (hierarchy < 2 ^ 3)
        × (code_rate_hp < 2 ^ 3) × (code_rate_lp < 2 ^ 3) × (guard_interval < 2 ^ 2)
        × (transmission_mode < 2 ^ 2) × (other_frequency < 2 ^ 1) },
}

impl Fields for Terrestrial {
    ghost use Rattle.ts_pages.specs.DeliveryPages.{terrestrial};
    ghost use Rattle.ts_descr_delivery.specs.DeliveryFields.{terrestrial_fields};

    ghost rows = { terrestrial.head };

    ghost fields = { terrestrial_fields };

    fn of(_alloc: Global, values: &[FieldValue]) -> Result<Option<Terrestrial>, AllocError> {
        let Some((channel, behind)) = Channel::of(values) else {
            return Ok(None);
        };
        let Some((coding, last)) = Coding::of(behind) else {
            return Ok(None);
        };
        let Some(carriers) = Carriers::of(last) else {
            return Ok(None);
        };
        Ok(Some(Terrestrial {
            centre_frequency: channel.centre_frequency,
            bandwidth: channel.bandwidth,
            priority: channel.priority,
            time_slicing: channel.time_slicing,
            mpe_fec: channel.mpe_fec,
            constellation: coding.constellation,
            hierarchy: coding.hierarchy,
            code_rate_hp: coding.code_rate_hp,
            code_rate_lp: coding.code_rate_lp,
            guard_interval: carriers.guard_interval,
            transmission_mode: carriers.transmission_mode,
            other_frequency: carriers.other_frequency,
        }))
    }

    #[tactic(auto, unfolding(ts_fields::specs::Fitting::fits_uncounted))]
    fn values(&self, alloc: Global) -> Result<Vec<FieldValue>, AllocError> {
        Ok(vec![in alloc;
            FieldValue::Number(u64::from(self.centre_frequency)),
            FieldValue::Number(u64::from(self.bandwidth)),
            FieldValue::Number(u64::from(self.priority)),
            FieldValue::Number(u64::from(self.time_slicing)),
            FieldValue::Number(u64::from(self.mpe_fec)),
            FieldValue::Number(u64::from(self.constellation)),
            FieldValue::Number(u64::from(self.hierarchy)),
            FieldValue::Number(u64::from(self.code_rate_hp)),
            FieldValue::Number(u64::from(self.code_rate_lp)),
            FieldValue::Number(u64::from(self.guard_interval)),
            FieldValue::Number(u64::from(self.transmission_mode)),
            FieldValue::Number(u64::from(self.other_frequency)),
        ]?)
    }
}

/// The first fields: frequency, bandwidth, priority, time slicing and MPE-FEC.
#[derive(Drop)]
struct Channel {
    centre_frequency: u32,
    bandwidth: u8,
    priority: u8,
    time_slicing: u8,
    mpe_fec: u8,
    ghost widths: { (bandwidth < 2 ^ 3) × (priority < 2 ^ 1)
        × (time_slicing < 2 ^ 1) × (mpe_fec < 2 ^ 1) },
}

impl Channel {
    ghost use Rattle.std.specs.Prelude.{◌≡◌, ◌++◌, drop, map, option_map, true, Some, IfSome};
    ghost use Rattle.ts_fields.specs.Fitting.{fits};
    ghost use Rattle.ts_fields.specs.Layout.{held};
    ghost use Rattle.ts_pages.specs.DeliveryPages.{terrestrial};
    ghost use Rattle.ts_descr_delivery.specs.DeliveryFields.{channel_fields};

    /// The first fields of the values, and the values after them.
    #[tactic(auto, unfolding(ts_fields::specs::Fitting::fits))]
    fn of(values: &[FieldValue]) -> Option<(Channel, &[FieldValue])>
        requires { fits terrestrial.head (map held values.now) ≡ true }
        ensures held { option_map (λ x. channel_fields x.0 ++ map held x.1.now) result
            ≡ Some (map held values.now) }
        ensures behind { IfSome result (λ x. fits (drop 6 terrestrial.head) (map held x.1.now) ≡ true) }
    {
        let [
            FieldValue::Number(centre_frequency),
            FieldValue::Number(bandwidth),
            FieldValue::Number(priority),
            FieldValue::Number(time_slicing),
            FieldValue::Number(mpe_fec),
            behind @ ..,
        ] = values
        else {
            return None;
        };
        let channel = Channel {
            centre_frequency: *centre_frequency as u32,
            bandwidth: *bandwidth as u8,
            priority: *priority as u8,
            time_slicing: *time_slicing as u8,
            mpe_fec: *mpe_fec as u8,
        };
        Some((channel, behind))
    }
}

/// The next fields: constellation, hierarchy and code rates.
#[derive(Drop)]
struct Coding {
    constellation: u8,
    hierarchy: u8,
    code_rate_hp: u8,
    code_rate_lp: u8,
    ghost widths: { (constellation < 2 ^ 2) × (hierarchy < 2 ^ 3)
        × (code_rate_hp < 2 ^ 3) × (code_rate_lp < 2 ^ 3) },
}

impl Coding {
    ghost use Rattle.std.specs.Prelude.{◌≡◌, ◌++◌, drop, map, option_map, true, Some, IfSome};
    ghost use Rattle.ts_fields.specs.Fitting.{fits};
    ghost use Rattle.ts_fields.specs.Layout.{held};
    ghost use Rattle.ts_pages.specs.DeliveryPages.{terrestrial};
    ghost use Rattle.ts_descr_delivery.specs.DeliveryFields.{coding_fields};

    /// The next fields of the values, and the values after them.
    #[tactic(auto, unfolding(ts_fields::specs::Fitting::fits))]
    fn of(values: &[FieldValue]) -> Option<(Coding, &[FieldValue])>
        requires { fits (drop 6 terrestrial.head) (map held values.now) ≡ true }
        ensures held { option_map (λ x. coding_fields x.0 ++ map held x.1.now) result
            ≡ Some (map held values.now) }
        ensures behind { IfSome result (λ x. fits (drop 10 terrestrial.head) (map held x.1.now) ≡ true) }
    {
        let [
            FieldValue::Number(constellation),
            FieldValue::Number(hierarchy),
            FieldValue::Number(code_rate_hp),
            FieldValue::Number(code_rate_lp),
            behind @ ..,
        ] = values
        else {
            return None;
        };
        let coding = Coding {
            constellation: *constellation as u8,
            hierarchy: *hierarchy as u8,
            code_rate_hp: *code_rate_hp as u8,
            code_rate_lp: *code_rate_lp as u8,
        };
        Some((coding, behind))
    }
}

/// The last fields: guard interval, transmission mode and whether other frequencies are used.
#[derive(Drop)]
struct Carriers {
    guard_interval: u8,
    transmission_mode: u8,
    other_frequency: u8,
    ghost widths: { (guard_interval < 2 ^ 2)
        × (transmission_mode < 2 ^ 2) × (other_frequency < 2 ^ 1) },
}

impl Carriers {
    ghost use Rattle.std.specs.Prelude.{◌≡◌, drop, map, option_map, true, Some};
    ghost use Rattle.ts_fields.specs.Fitting.{fits};
    ghost use Rattle.ts_fields.specs.Layout.{held};
    ghost use Rattle.ts_pages.specs.DeliveryPages.{terrestrial};
    ghost use Rattle.ts_descr_delivery.specs.DeliveryFields.{carriers_fields};

    /// The last fields of the values.
    #[tactic(auto, unfolding(ts_fields::specs::Fitting::fits))]
    fn of(values: &[FieldValue]) -> Option<Carriers>
        requires { fits (drop 10 terrestrial.head) (map held values.now) ≡ true }
        ensures { option_map carriers_fields result ≡ Some (map held values.now) }
    {
        let [
            FieldValue::Number(guard_interval),
            FieldValue::Number(transmission_mode),
            FieldValue::Number(other_frequency),
        ] = values
        else {
            return None;
        };
        Some(Carriers {
            guard_interval: *guard_interval as u8,
            transmission_mode: *transmission_mode as u8,
            other_frequency: *other_frequency as u8,
        })
    }
}
