//! The option `--format`: the form of the packets of a file.

ghost use Rattle.std.specs.Prelude.{◌≡◌, MatchResult, codes, false, true, unwrap_or};
ghost use Rattle.chain_args.specs.Inputs.{form_named, is_form};
ghost use Rattle.plugin_options.specs.Forms.{known};
ghost use Rattle.plugin_options.specs.Options.{is_formed, read_value};
ghost use Rattle.plugin_options.specs.Refusal.{IsRefusedBy};
ghost use Rattle.plugin_options.specs.declared.words_rule.WordsRule.TheVariants.{Value};
ghost use Rattle.packet_forms.specs.declared.forms.Form.TheVariants.{Ts};

use packet_forms::Form;
use plugin_options::{ParsedOptions, Refusal, WordsRule};

/// The form with this name; `None` where there is none.
fn form_of(name: &str) -> Option<Form>
    ensures { result ≡ form_named name.now }
{
    match name {
        "ts" => Some(Form::Ts),
        "m2ts" => Some(Form::M2ts),
        "rs204" => Some(Form::Rs204),
        _ => None,
    }
}

/// The form that the option names; bare packets of 188 bytes where it is not given.
pub(crate) fn read_format(found: &ParsedOptions) -> Result<Form, Refusal>
    ensures { MatchResult result
        (λ form. (is_formed (known is_form) (codes "format") found.now ≡ true)
        × (form ≡ unwrap_or (read_value form_named (codes "format") found.now) Ts))
        (IsRefusedBy Value (is_formed (known is_form) (codes "format") found.now ≡ false)) }
{
    let Some(name) = found.value("format") else {
        return Ok(Form::Ts);
    };
    match form_of(name) {
        Some(form) => Ok(form),
        None => Err(Refusal::Broken(WordsRule::Value)),
    }
}
