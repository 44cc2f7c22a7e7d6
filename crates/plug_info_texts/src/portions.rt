//! The shares of packets in the stream, as text.
ghost use Rattle.std.specs.Prelude.{◌≡◌, ◌*◌, IfOk};
ghost use Rattle.std.specs.String.{string_bytes};
ghost use Rattle.ts_packet.specs.declared.numbers.TheConstants.{PACKET_SIZE};
ghost use Rattle.plug_info_texts.specs.InfoTexts;

use crate::pid_numbers::PidNumbers;
use crate::rounding::rounded;
use crate::scene::Scene;
use std::alloc::{AllocError, Global};

// A share in hundredths of a percent, rounded to the nearest; 0 of nothing.
fn hundredths(part: u64, whole: u64) -> u128
    ensures { result ≡ InfoTexts.hundredths part whole }
{
    if whole == 0 {
        return 0;
    }
    rounded(part, 10_000, whole)
}

/// A share, in percent with two decimals.
pub fn percent(alloc: Global, part: u64, whole: u64) -> Result<String, AllocError>
    ensures { IfOk result (λ text. string_bytes text ≡ InfoTexts.percent (InfoTexts.hundredths part whole)) }
{
    let share = hundredths(part, whole);
    let text = format!(in alloc; "{}.{}{}%", share / 100, share / 10 % 10, share % 10)?;
    Ok(text)
}

/// The bit rate of `part` packets among `whole` positions, of which `rate` bits pass in a second; rounded to the nearest,
/// in bits per second. There is none of no positions, or without `rate`.
pub fn rate_part(rate: Option<u64>, part: u64, whole: u64) -> Option<u128>
    ensures { result ≡ InfoTexts.rate_part rate part whole }
{
    let rate = rate?;
    if whole == 0 {
        return None;
    }
    Some(rounded(rate, part, whole))
}

/// The bit rate of `part` packets among `whole` positions, or `none`.
pub fn rate_text(
    alloc: Global,
    rate: Option<u64>,
    part: u64,
    whole: u64,
) -> Result<String, AllocError>
    ensures { IfOk result (λ text. string_bytes text ≡ InfoTexts.rate_text rate part whole) }
{
    let text = match rate_part(rate, part, whole) {
        Some(rate) => format!(in alloc; "{rate}")?,
        None => String::from_str(alloc, "none")?,
    };
    Ok(text)
}

/// How many packets there are, their share, and their bit rate.
pub fn portion_text(alloc: Global, scene: &Scene, packets: u64) -> Result<String, AllocError>
    ensures { IfOk result (λ text. string_bytes text ≡ InfoTexts.portion_text scene.now packets) }
{
    let share = percent(alloc, packets, scene.whole)?;
    let rate = rate_text(alloc, scene.rate, packets, scene.extent)?;
    let text = format!(in alloc; " packets {packets} share {share} bitrate {rate}")?;
    Ok(text)
}

/// How many packets are scrambled, and how many have a faulty counter.
pub fn troubles_text(alloc: Global, numbers: &PidNumbers) -> Result<String, AllocError>
    ensures { IfOk result (λ text. string_bytes text ≡ InfoTexts.troubles_text numbers.now) }
{
    let text = format!(in alloc;
        " scrambled {} faults {}",
        numbers.scrambled, numbers.faults
    )?;
    Ok(text)
}

/// The size of packets in bytes, at 188 bytes each.
pub fn bytes_of(packets: u64) -> u128
    ensures { result ≡ packets * PACKET_SIZE }
{
    u128::from(packets) * 188
}
