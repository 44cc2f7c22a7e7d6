//! How the words of a plugin are read: its own options and those that plugins share.
ghost use Rattle.std.specs.Prelude.{◌≡◌, ◌≤◌, Err, IfOk, IfSome, MatchResult, None, Ok, codes, find, map};
ghost use Rattle.std.specs.Str.{bytes_eq};
ghost use Rattle.std.specs.String.{string_bytes};
ghost use Rattle.plugin_options.specs.NumberSet.{AllBelow};
ghost use Rattle.plugin_options.specs.Options.{read_value};
ghost use Rattle.plugin_options.specs.OptionTable.{OptionTable};
ghost use Rattle.plugin_options.specs.Ranges.{ranges_of};
ghost use Rattle.plugin_options.specs.Refusal.{Reads, ReadsParsed};
ghost use Rattle.plugin_options.specs.declared.limits.TheConstants.{LAST_LABEL, MOST_PACKETS as MOST_EVERY};
ghost use Rattle.ts_packet.specs.declared.labels.TheConstants.{LABEL_COUNT};
ghost use Rattle.plugin_settings.specs.declared.plugin_conf.PluginConf.{PluginConf as GivenConf};
ghost use Rattle.plugin_settings.specs.Items.{IsSharedRefusal, IsValidItem, counts_of, every_of, options_of_item, shared_broken, with_shared};
ghost use Rattle.plugin_settings.specs.Plugins.{IsValid, kinds, name_of_kind, plugin_kind_named};

use crate::plugin_conf::{KINDS, PluginConf, PluginKind};
use crate::plugin_item::PluginItem;
use crate::shared_options::{SharedOptions, read_shared, shared_values, with_shared_options};
use plugin_options::{ParsedOptions, Refusal, WordsRule, command_with};
use std::alloc::Global;

// The first of these kinds that has this name.
fn kind_named(kinds: &[PluginKind], name: &str) -> Option<PluginKind>
    ensures { result ≡ find (λ kind. bytes_eq name.now (name_of_kind kind)) kinds.now }
{
    for kind in kinds {
        if name == kind.name() {
            return Some(*kind);
        }
    }
    None
}

impl PluginKind {
    /// The kind of plugin with this name; `None` where there is none.
    pub fn of(name: &str) -> Option<PluginKind>
        ensures { result ≡ plugin_kind_named name.now }
    {
        kind_named(&KINDS, name)
    }

    /// All kinds, in the order in which help names them.
    pub fn all() -> &'static [PluginKind]
        ensures { result.now ≡ kinds }
    {
        &KINDS
    }

    /// Reads the words after the name.
    pub fn read(self, alloc: Global, words: &[String]) -> Result<PluginItem, Refusal>
        ensures reads { Reads (options_of_item self) (map string_bytes words.now) result }
        ensures valid { IfOk result IsValidItem }
    {
        let own = command_with(alloc, self.options())?;
        let has_summary = self.has_summary();
        let command = with_shared_options(alloc, own, has_summary)?;
        let found = ParsedOptions::of(command, words)?;
        with_shared(alloc, has_summary, self.settings(alloc, &found), &found)
    }
}

// The settings of the own options of a plugin, with what is found of those that it shares.
fn with_shared(
    alloc: Global,
    has_summary: bool,
    conf: Result<PluginConf, Refusal>,
    found: &ParsedOptions,
) -> Result<PluginItem, Refusal>
    requires { IfOk conf IsValid }
    ensures reads { (table : OptionTable GivenConf) → ReadsParsed table found.now conf
        → ReadsParsed (with_shared has_summary table) found.now result }
    ensures valid { IfOk result IsValidItem }
{
    match conf {
        Ok(conf) => shared_with(alloc, has_summary, conf, found),
        Err(refusal) => refused(alloc, has_summary, refusal, found),
    }
}

// The settings with what is found.
fn shared_with(
    alloc: Global,
    has_summary: bool,
    conf: PluginConf,
    found: &ParsedOptions,
) -> Result<PluginItem, Refusal>
    requires { IsValid conf }
    ensures reads { (table : OptionTable GivenConf) → ReadsParsed table found.now (Ok conf)
        → ReadsParsed (with_shared has_summary table) found.now result }
    ensures valid { IfOk result IsValidItem }
{
    let (conf, shared) = beside_shared(alloc, has_summary, conf, found)?;
    Ok(PluginItem {
        conf,
        every: shared.every,
        counts: shared.counts,
        only: shared.only,
    })
}

// Any settings with what is found. They are a type parameter, since to say what becomes of a large value where it is
// dropped takes long to prove.
fn beside_shared<C: Drop>(
    alloc: Global,
    has_summary: bool,
    conf: C,
    found: &ParsedOptions,
) -> Result<(C, SharedOptions), Refusal>
    ensures same { IfOk result (λ pair. pair.0 ≡ conf) }
    ensures reads { MatchResult result (λ _. shared_broken has_summary found.now ≡ None) (IsSharedRefusal has_summary found.now) }
    ensures every { IfOk result (λ pair. pair.1.every ≡ every_of has_summary found.now) }
    ensures counts { IfOk result (λ pair. pair.1.counts ≡ counts_of found.now) }
    ensures only { IfOk result (λ pair. pair.1.only ≡ read_value (ranges_of LAST_LABEL) (codes "only-label") found.now) }
    ensures every_range { IfOk result (λ pair. IfSome pair.1.every (λ n. (1 ≤ n) × (n ≤ MOST_EVERY))) }
    ensures only_range { IfOk result (λ pair. IfSome pair.1.only (AllBelow LABEL_COUNT)) }
{
    let shared = read_shared(alloc, has_summary, found)?;
    Ok((conf, shared))
}

// Why the words are refused, where the own options of the plugin are. A value of one that is shared is reported before options
// in conflict, and after what is missing.
fn refused(
    alloc: Global,
    has_summary: bool,
    refusal: Refusal,
    found: &ParsedOptions,
) -> Result<PluginItem, Refusal>
    ensures reads { (table : OptionTable GivenConf) → ReadsParsed table found.now (Err refusal)
        → ReadsParsed (with_shared has_summary table) found.now result }
    ensures valid { IfOk result IsValidItem }
{
    match refusal {
        Refusal::Broken(WordsRule::Conflict) => {
            let _ = shared_values(alloc, has_summary, found)?;
            Err(Refusal::Broken(WordsRule::Conflict))
        }
        refusal => Err(refusal),
    }
}
