//! The plugins `zap` and `svremove`, with their options. Packets of a transport stream come in; those of some services
//! alone, or of all the others, go out, with a PAT, an SDT and PMTs that match them, and with EIT sections of theirs if
//! wanted. The layer above reads the settings from the words, makes each plugin from its settings, and uses it by the
//! clauses of `Plugin`.
#![tactic(auto)]

// The rows of options that both plugins have.
macro_rules! services_row {
    () => {
        OptionRow {
            word: OptionWord::Operands("operand", Takes::Service),
            text: OptionText {
                value: "S",
                meaning: "1 to 65535: a service's number in the PAT; or its name, letter for letter as info reports it beside the number; up to 62 of them",
                need: Need::Required,
                beside: Beside::Any,
            },
        }
    };
}

macro_rules! stuffing_row {
    () => {
        OptionRow {
            word: OptionWord::Flag("stuffing"),
            text: OptionText {
                value: "",
                meaning: "put a null packet instead of each packet that is dropped",
                need: Need::Free,
                beside: Beside::Any,
            },
        }
    };
}

mod action;
mod action_row;
mod editors;
mod eit_part;
mod kept;
mod kept_words;
mod limits;
mod nit_part;
mod pat_part;
mod pid_actions;
mod pmt_alone;
mod present;
mod sdt_part;
mod service_conf;
mod service_follower;
mod service_steps;
mod service_words;
mod services;
mod svremove;
mod svremove_conf;
mod svremove_words;
mod way;
mod zap;
mod zap_conf;
mod zap_words;

pub use kept::Kept;
pub use named_services::Unnamed;
pub use service_conf::ServiceConf;
pub use service_steps::ServiceSteps;
pub use svremove::{Svremove, new_svremove};
pub use svremove_conf::SvremoveConf;
pub use zap::{Zap, new_zap};
pub use zap_conf::ZapConf;
