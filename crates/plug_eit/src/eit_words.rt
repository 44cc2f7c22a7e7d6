//! The options of `eit`, and its settings from their values.

ghost use Rattle.std.specs.Prelude.{◌≡◌, ◌≤◌, IfOk, IfSome, MatchResult, false, true};
ghost use Rattle.plug_eit.specs.EitSettings.{IsValidEit};
ghost use Rattle.plug_eit.specs.EitWords.{eit, is_edit_given};
ghost use Rattle.plugin_options.specs.Refusal.{ReadsParsed};

use crate::eit_conf::EitConf;
use crate::numbers::{LAST_ID, LAST_MODE, LAST_STATUS};
use followed_services::service_option;
use plug_time::{LEAST_SHIFT, MOST_SHIFT};
use plugin_entry::{PluginHelp, PluginSettings};
use plugin_options::{
    Beside, Need, OptionRow, OptionText, OptionWord, ParsedOptions, Refusal, Takes, WordsRule,
};
use std::alloc::Global;

// The options of `eit`.
static EIT: [OptionRow; 8] = [
    OptionRow {
        word: OptionWord::Value("service", Takes::Service),
        text: OptionText {
            value: "S",
            meaning: "1 to 65535: the number of the service whose EIT sections are edited; or its name, letter for letter as info reports it beside the number",
            need: Need::Required,
            beside: Beside::Any,
        },
    },
    OptionRow {
        word: OptionWord::Value("event", Takes::Number(0, LAST_ID)),
        text: OptionText {
            value: "ID",
            meaning: "0 to 65535: the event_id of the events that are edited; without it all are",
            need: Need::Free,
            beside: Beside::Any,
        },
    },
    OptionRow {
        word: OptionWord::Value("name", Takes::Text),
        text: OptionText {
            value: "TEXT",
            meaning: "their name, in each short_event_descriptor",
            need: Need::OneOf,
            beside: Beside::Any,
        },
    },
    OptionRow {
        word: OptionWord::Value("text", Takes::Text),
        text: OptionText {
            value: "TEXT",
            meaning: "the text about them, in each short_event_descriptor",
            need: Need::OneOf,
            beside: Beside::Any,
        },
    },
    OptionRow {
        word: OptionWord::Value("shift", Takes::Signed(LEAST_SHIFT, MOST_SHIFT)),
        text: OptionText {
            value: "SECONDS",
            meaning: "-10,000,000 to 10,000,000: by how many seconds they start later; earlier where it is below 0, as --shift=-3600",
            need: Need::OneOf,
            beside: Beside::Any,
        },
    },
    OptionRow {
        word: OptionWord::Value("running-status", Takes::Number(0, LAST_STATUS)),
        text: OptionText {
            value: "N",
            meaning: "0 to 7: their running_status",
            need: Need::OneOf,
            beside: Beside::Any,
        },
    },
    OptionRow {
        word: OptionWord::Value("free-ca-mode", Takes::Number(0, LAST_MODE)),
        text: OptionText {
            value: "N",
            meaning: "0 to 1: their free_CA_mode",
            need: Need::OneOf,
            beside: Beside::Any,
        },
    },
    OptionRow {
        word: OptionWord::Flag("remove"),
        text: OptionText {
            value: "",
            meaning: "alone beside --service and --event: take the events out of their sections, which stay; without --event take out the sections",
            need: Need::OneOf,
            beside: Beside::Any,
        },
    },
];

// Whether what has to be given is: the service, and what is done with its events.
fn is_needed_given(found: &ParsedOptions) -> bool
    ensures { result ≡ eit.has_needed found.now }
{
    found.has_value("service") && is_edit_given(found)
}

// Whether what is done with the events is given.
fn is_edit_given(found: &ParsedOptions) -> bool
    ensures { result ≡ is_edit_given found.now }
{
    found.has_value("name")
        || found.has_value("text")
        || found.has_value("shift")
        || found.has_value("running-status")
        || found.has_value("free-ca-mode")
        || found.has_flag("remove")
}

// Reads the settings of `eit` from what its command found in the words.
fn eit_settings(alloc: Global, found: &ParsedOptions) -> Result<EitConf, Refusal>
    ensures reads { ReadsParsed eit found.now result }
    ensures valid { IfOk result IsValidEit }
{
    if !is_needed_given(found) {
        return Err(Refusal::Broken(WordsRule::Missing));
    }
    let Some(service) = service_option(alloc, found, "service")? else {
        return Err(Refusal::Broken(WordsRule::Missing));
    };
    let event = found.number("event", 0, LAST_ID)?;
    let shift = found.signed("shift", LEAST_SHIFT, MOST_SHIFT)?;
    let running_status = found.number("running-status", 0, LAST_STATUS)?;
    let free_ca_mode = found.number("free-ca-mode", 0, LAST_MODE)?;
    let name = found.optional_text(alloc, "name")?;
    let text = found.optional_text(alloc, "text")?;
    let conf = EitConf {
        service,
        event,
        name,
        text,
        shift,
        running_status,
        free_ca_mode,
        remove: found.has_flag("remove"),
    };
    if !conf.goes_together() {
        return Err(Refusal::Broken(WordsRule::Conflict));
    }
    Ok(conf)
}

impl PluginSettings for EitConf {
    ghost use Rattle.std.specs.Prelude.{refl};
    ghost use Rattle.plug_eit.specs.EitEntry.{eit_entry};

    ghost entry = { eit_entry };

    fn name() -> &'static str {
        "eit"
    }

    fn options() -> &'static [OptionRow<'static>] {
        &EIT
    }

    fn help() -> PluginHelp {
        PluginHelp {
            usage: "-P eit --service S [--event ID] (--name TEXT | --text TEXT | --shift=SECONDS | --running-status N | --free-ca-mode N | --remove)..",
            rule: "The EIT sections of the service, of table_id 78 and 80 to 95 on PID 18, are edited as they pass; each section there is given once, from the packet with which it is complete on, and a packet for which none waits becomes a null packet. Scrambled packets pass. A section never becomes longer than it was: in a short_event_descriptor first the text is cut, then the name, at a character's end. A section that does not read, one without such an event, and those of other services and tables are given as they came. An undefined start stays, and so does one that would leave its 16 bits of days. A service is given by its number, or by its name as info shows it: the first of that name in the SDT in force, at each packet. While no service has the name, all sections are given as they came.",
        }
    }

    fn read(alloc: Global, found: &ParsedOptions) -> Result<EitConf, Refusal> {
        eit_settings(alloc, found)
    }

    fn table_file(&self) -> Option<&str> {
        None
    }

    fn uses_joint_termination(&self) -> bool {
        false
    }

    ghost simple = { refl };
}
