//! Numbers that are rounded.
ghost use Rattle.std.specs.Prelude.{◌≡◌, ◌<◌, ◌*◌};
ghost use Rattle.plug_info_texts.specs.Rounding;

/// The whole number nearest to `part * factor / whole`, and the greater one where two are as near.
pub fn rounded(part: u64, factor: u64, whole: u64) -> u128
    requires { 0 < whole }
    ensures { result ≡ Rounding.rounded (part * factor) whole }
{
    let whole = u128::from(whole);
    (u128::from(part) * u128::from(factor) + whole / 2) / whole
}
