//! The settings and the kinds of all plugins. Written by tools/plugins from plugins.txt.
ghost use Rattle.std.specs.Prelude.{◌≡◌, IfOk, option_map};
ghost use Rattle.plugin_options.specs.OptionWords.{rows_of_options};
ghost use Rattle.plugin_options.specs.Refusal.{ReadsParsed};
ghost use Rattle.plugin_settings.specs.Plugins.{IsValid, has_summary, kind_of, name_of, name_of_kind, options_of_plugin, table_file_of, uses_joint};

use plug_analyze::AnalyzeConf;
use plug_edit::{EditCatConf, EditNitConf, EditPatConf, EditPmtConf, EditSdtConf};
use plug_eit::EitConf;
use plug_end::UntilConf;
use plug_info::InfoConf;
use plug_inject::InjectConf;
use plug_monitor::MonitorConf;
use plug_move::RemapConf;
use plug_pass::{FilterConf, PatternConf, SkipConf, SliceConf};
use plug_pcr::PcrverifyConf;
use plug_rate::RateConf;
use plug_rename::RenameConf;
use plug_restuff::RestuffConf;
use plug_service::{SvremoveConf, ZapConf};
use plug_tables::TablesConf;
use plug_time::TimeConf;
use plug_times::TimestampsConf;
use plug_watch::{ContinuityOptions, CountConf};
use plug_window::{CompactConf, RmorphanConf};
use plugin_entry::{PluginHelp, PluginSettings};
use plugin_options::{OptionRow, ParsedOptions, Refusal};
use std::alloc::Global;

/// The settings of one plugin of the chain.
#[derive(Drop)]
pub enum PluginConf {
    Filter(FilterConf),
    Skip(SkipConf),
    Slice(SliceConf),
    Pattern(PatternConf),
    Until(UntilConf),
    Count(CountConf),
    Continuity(ContinuityOptions),
    Remap(RemapConf),
    Inject(InjectConf),
    Pat(EditPatConf),
    Cat(EditCatConf),
    Pmt(EditPmtConf),
    Sdt(EditSdtConf),
    Nit(EditNitConf),
    Time(TimeConf),
    Eit(EitConf),
    Zap(ZapConf),
    Svremove(SvremoveConf),
    Svrename(RenameConf),
    Analyze(AnalyzeConf),
    Info(InfoConf),
    Tables(TablesConf),
    Compact(CompactConf),
    Rmorphan(RmorphanConf),
    Pcrverify(PcrverifyConf),
    Timestamps(TimestampsConf),
    Rate(RateConf),
    Monitor(MonitorConf),
    Restuff(RestuffConf),
}

/// A kind of plugin.
#[derive(Clone, Copy, PartialEq, Eq)]
pub enum PluginKind {
    Filter,
    Skip,
    Slice,
    Pattern,
    Until,
    Count,
    Continuity,
    Remap,
    Inject,
    Pat,
    Cat,
    Pmt,
    Sdt,
    Nit,
    Time,
    Eit,
    Zap,
    Svremove,
    Svrename,
    Analyze,
    Info,
    Tables,
    Compact,
    Rmorphan,
    Pcrverify,
    Timestamps,
    Rate,
    Monitor,
    Restuff,
}

/// All kinds, in the order in which help names them.
pub(crate) static KINDS: [PluginKind; 29] = [
    PluginKind::Filter,
    PluginKind::Skip,
    PluginKind::Slice,
    PluginKind::Pattern,
    PluginKind::Until,
    PluginKind::Count,
    PluginKind::Continuity,
    PluginKind::Remap,
    PluginKind::Inject,
    PluginKind::Pat,
    PluginKind::Cat,
    PluginKind::Pmt,
    PluginKind::Sdt,
    PluginKind::Nit,
    PluginKind::Time,
    PluginKind::Eit,
    PluginKind::Zap,
    PluginKind::Svremove,
    PluginKind::Svrename,
    PluginKind::Analyze,
    PluginKind::Info,
    PluginKind::Tables,
    PluginKind::Compact,
    PluginKind::Rmorphan,
    PluginKind::Pcrverify,
    PluginKind::Timestamps,
    PluginKind::Rate,
    PluginKind::Monitor,
    PluginKind::Restuff,
];

// What the settings of a kind have of this name.
macro_rules! of_kind {
    ($kind:expr, $name:ident($($given:expr),*)) => {
        match $kind {
            PluginKind::Filter => <FilterConf as PluginSettings>::$name($($given),*),
            PluginKind::Skip => <SkipConf as PluginSettings>::$name($($given),*),
            PluginKind::Slice => <SliceConf as PluginSettings>::$name($($given),*),
            PluginKind::Pattern => <PatternConf as PluginSettings>::$name($($given),*),
            PluginKind::Until => <UntilConf as PluginSettings>::$name($($given),*),
            PluginKind::Count => <CountConf as PluginSettings>::$name($($given),*),
            PluginKind::Continuity => <ContinuityOptions as PluginSettings>::$name($($given),*),
            PluginKind::Remap => <RemapConf as PluginSettings>::$name($($given),*),
            PluginKind::Inject => <InjectConf as PluginSettings>::$name($($given),*),
            PluginKind::Pat => <EditPatConf as PluginSettings>::$name($($given),*),
            PluginKind::Cat => <EditCatConf as PluginSettings>::$name($($given),*),
            PluginKind::Pmt => <EditPmtConf as PluginSettings>::$name($($given),*),
            PluginKind::Sdt => <EditSdtConf as PluginSettings>::$name($($given),*),
            PluginKind::Nit => <EditNitConf as PluginSettings>::$name($($given),*),
            PluginKind::Time => <TimeConf as PluginSettings>::$name($($given),*),
            PluginKind::Eit => <EitConf as PluginSettings>::$name($($given),*),
            PluginKind::Zap => <ZapConf as PluginSettings>::$name($($given),*),
            PluginKind::Svremove => <SvremoveConf as PluginSettings>::$name($($given),*),
            PluginKind::Svrename => <RenameConf as PluginSettings>::$name($($given),*),
            PluginKind::Analyze => <AnalyzeConf as PluginSettings>::$name($($given),*),
            PluginKind::Info => <InfoConf as PluginSettings>::$name($($given),*),
            PluginKind::Tables => <TablesConf as PluginSettings>::$name($($given),*),
            PluginKind::Compact => <CompactConf as PluginSettings>::$name($($given),*),
            PluginKind::Rmorphan => <RmorphanConf as PluginSettings>::$name($($given),*),
            PluginKind::Pcrverify => <PcrverifyConf as PluginSettings>::$name($($given),*),
            PluginKind::Timestamps => <TimestampsConf as PluginSettings>::$name($($given),*),
            PluginKind::Rate => <RateConf as PluginSettings>::$name($($given),*),
            PluginKind::Monitor => <MonitorConf as PluginSettings>::$name($($given),*),
            PluginKind::Restuff => <RestuffConf as PluginSettings>::$name($($given),*),
        }
    };
}

// The settings of a kind as settings of any kind.
macro_rules! read_kind {
    ($kind:expr, $alloc:expr, $found:expr) => {
        match $kind {
            PluginKind::Filter => <FilterConf as PluginSettings>::read($alloc, $found).map(PluginConf::Filter),
            PluginKind::Skip => <SkipConf as PluginSettings>::read($alloc, $found).map(PluginConf::Skip),
            PluginKind::Slice => <SliceConf as PluginSettings>::read($alloc, $found).map(PluginConf::Slice),
            PluginKind::Pattern => <PatternConf as PluginSettings>::read($alloc, $found).map(PluginConf::Pattern),
            PluginKind::Until => <UntilConf as PluginSettings>::read($alloc, $found).map(PluginConf::Until),
            PluginKind::Count => <CountConf as PluginSettings>::read($alloc, $found).map(PluginConf::Count),
            PluginKind::Continuity => <ContinuityOptions as PluginSettings>::read($alloc, $found).map(PluginConf::Continuity),
            PluginKind::Remap => <RemapConf as PluginSettings>::read($alloc, $found).map(PluginConf::Remap),
            PluginKind::Inject => <InjectConf as PluginSettings>::read($alloc, $found).map(PluginConf::Inject),
            PluginKind::Pat => <EditPatConf as PluginSettings>::read($alloc, $found).map(PluginConf::Pat),
            PluginKind::Cat => <EditCatConf as PluginSettings>::read($alloc, $found).map(PluginConf::Cat),
            PluginKind::Pmt => <EditPmtConf as PluginSettings>::read($alloc, $found).map(PluginConf::Pmt),
            PluginKind::Sdt => <EditSdtConf as PluginSettings>::read($alloc, $found).map(PluginConf::Sdt),
            PluginKind::Nit => <EditNitConf as PluginSettings>::read($alloc, $found).map(PluginConf::Nit),
            PluginKind::Time => <TimeConf as PluginSettings>::read($alloc, $found).map(PluginConf::Time),
            PluginKind::Eit => <EitConf as PluginSettings>::read($alloc, $found).map(PluginConf::Eit),
            PluginKind::Zap => <ZapConf as PluginSettings>::read($alloc, $found).map(PluginConf::Zap),
            PluginKind::Svremove => <SvremoveConf as PluginSettings>::read($alloc, $found).map(PluginConf::Svremove),
            PluginKind::Svrename => <RenameConf as PluginSettings>::read($alloc, $found).map(PluginConf::Svrename),
            PluginKind::Analyze => <AnalyzeConf as PluginSettings>::read($alloc, $found).map(PluginConf::Analyze),
            PluginKind::Info => <InfoConf as PluginSettings>::read($alloc, $found).map(PluginConf::Info),
            PluginKind::Tables => <TablesConf as PluginSettings>::read($alloc, $found).map(PluginConf::Tables),
            PluginKind::Compact => <CompactConf as PluginSettings>::read($alloc, $found).map(PluginConf::Compact),
            PluginKind::Rmorphan => <RmorphanConf as PluginSettings>::read($alloc, $found).map(PluginConf::Rmorphan),
            PluginKind::Pcrverify => <PcrverifyConf as PluginSettings>::read($alloc, $found).map(PluginConf::Pcrverify),
            PluginKind::Timestamps => <TimestampsConf as PluginSettings>::read($alloc, $found).map(PluginConf::Timestamps),
            PluginKind::Rate => <RateConf as PluginSettings>::read($alloc, $found).map(PluginConf::Rate),
            PluginKind::Monitor => <MonitorConf as PluginSettings>::read($alloc, $found).map(PluginConf::Monitor),
            PluginKind::Restuff => <RestuffConf as PluginSettings>::read($alloc, $found).map(PluginConf::Restuff),
        }
    };
}

// The same expression for the settings of each variant.
macro_rules! each_conf {
    ($some:expr, $conf:ident => $does:expr) => {
        match $some {
            PluginConf::Filter($conf) => $does,
            PluginConf::Skip($conf) => $does,
            PluginConf::Slice($conf) => $does,
            PluginConf::Pattern($conf) => $does,
            PluginConf::Until($conf) => $does,
            PluginConf::Count($conf) => $does,
            PluginConf::Continuity($conf) => $does,
            PluginConf::Remap($conf) => $does,
            PluginConf::Inject($conf) => $does,
            PluginConf::Pat($conf) => $does,
            PluginConf::Cat($conf) => $does,
            PluginConf::Pmt($conf) => $does,
            PluginConf::Sdt($conf) => $does,
            PluginConf::Nit($conf) => $does,
            PluginConf::Time($conf) => $does,
            PluginConf::Eit($conf) => $does,
            PluginConf::Zap($conf) => $does,
            PluginConf::Svremove($conf) => $does,
            PluginConf::Svrename($conf) => $does,
            PluginConf::Analyze($conf) => $does,
            PluginConf::Info($conf) => $does,
            PluginConf::Tables($conf) => $does,
            PluginConf::Compact($conf) => $does,
            PluginConf::Rmorphan($conf) => $does,
            PluginConf::Pcrverify($conf) => $does,
            PluginConf::Timestamps($conf) => $does,
            PluginConf::Rate($conf) => $does,
            PluginConf::Monitor($conf) => $does,
            PluginConf::Restuff($conf) => $does,
        }
    };
}

impl PluginKind {
    /// The name of the plugin on the command line and in the reports.
    pub fn name(self) -> &'static str
        ensures { result.now ≡ name_of_kind self }
    {
        of_kind!(self, name())
    }

    /// Its own options with what is said of them.
    pub fn options(self) -> &'static [OptionRow<'static>]
        ensures { rows_of_options result.now ≡ (options_of_plugin self).rows }
    {
        of_kind!(self, options())
    }

    /// Whether the plugin has a summary, and so the option `--every`.
    pub fn has_summary(self) -> bool
        ensures { result ≡ has_summary self }
    {
        match self {
            PluginKind::Filter => false,
            PluginKind::Skip => false,
            PluginKind::Slice => false,
            PluginKind::Pattern => false,
            PluginKind::Until => false,
            PluginKind::Count => true,
            PluginKind::Continuity => true,
            PluginKind::Remap => false,
            PluginKind::Inject => false,
            PluginKind::Pat => false,
            PluginKind::Cat => false,
            PluginKind::Pmt => false,
            PluginKind::Sdt => false,
            PluginKind::Nit => false,
            PluginKind::Time => false,
            PluginKind::Eit => false,
            PluginKind::Zap => false,
            PluginKind::Svremove => false,
            PluginKind::Svrename => false,
            PluginKind::Analyze => true,
            PluginKind::Info => true,
            PluginKind::Tables => false,
            PluginKind::Compact => false,
            PluginKind::Rmorphan => false,
            PluginKind::Pcrverify => true,
            PluginKind::Timestamps => true,
            PluginKind::Rate => true,
            PluginKind::Monitor => true,
            PluginKind::Restuff => false,
        }
    }

    /// What is said of it beside its options.
    pub fn help(self) -> PluginHelp {
        of_kind!(self, help())
    }

    // The settings from the values of its own options.
    pub(crate) fn settings(
        self,
        alloc: Global,
        found: &ParsedOptions,
    ) -> Result<PluginConf, Refusal>
        ensures reads { ReadsParsed (options_of_plugin self) found.now result }
        ensures valid { IfOk result IsValid }
    {
        read_kind!(self, alloc, found)
    }
}

impl PluginConf {
    /// The kind of plugin to which the settings belong.
    pub fn kind(&self) -> PluginKind
        ensures { result ≡ kind_of self.now }
    {
        match self {
            PluginConf::Filter(_) => PluginKind::Filter,
            PluginConf::Skip(_) => PluginKind::Skip,
            PluginConf::Slice(_) => PluginKind::Slice,
            PluginConf::Pattern(_) => PluginKind::Pattern,
            PluginConf::Until(_) => PluginKind::Until,
            PluginConf::Count(_) => PluginKind::Count,
            PluginConf::Continuity(_) => PluginKind::Continuity,
            PluginConf::Remap(_) => PluginKind::Remap,
            PluginConf::Inject(_) => PluginKind::Inject,
            PluginConf::Pat(_) => PluginKind::Pat,
            PluginConf::Cat(_) => PluginKind::Cat,
            PluginConf::Pmt(_) => PluginKind::Pmt,
            PluginConf::Sdt(_) => PluginKind::Sdt,
            PluginConf::Nit(_) => PluginKind::Nit,
            PluginConf::Time(_) => PluginKind::Time,
            PluginConf::Eit(_) => PluginKind::Eit,
            PluginConf::Zap(_) => PluginKind::Zap,
            PluginConf::Svremove(_) => PluginKind::Svremove,
            PluginConf::Svrename(_) => PluginKind::Svrename,
            PluginConf::Analyze(_) => PluginKind::Analyze,
            PluginConf::Info(_) => PluginKind::Info,
            PluginConf::Tables(_) => PluginKind::Tables,
            PluginConf::Compact(_) => PluginKind::Compact,
            PluginConf::Rmorphan(_) => PluginKind::Rmorphan,
            PluginConf::Pcrverify(_) => PluginKind::Pcrverify,
            PluginConf::Timestamps(_) => PluginKind::Timestamps,
            PluginConf::Rate(_) => PluginKind::Rate,
            PluginConf::Monitor(_) => PluginKind::Monitor,
            PluginConf::Restuff(_) => PluginKind::Restuff,
        }
    }

    /// The name of that plugin.
    pub fn name(&self) -> &'static str
        ensures { result.now ≡ name_of self.now }
    {
        self.kind().name()
    }

    /// The name of the file whose sections the plugin takes; `None` for a plugin that takes none. The empty name is
    /// standard input.
    pub fn table_file(&self) -> Option<&str>
        ensures { option_map (λ name. name.now) result ≡ table_file_of self.now }
    {
        each_conf!(self, conf => conf.table_file())
    }

    /// Whether the plugin uses joint termination.
    pub fn uses_joint_termination(&self) -> bool
        ensures { result ≡ uses_joint self.now }
    {
        each_conf!(self, conf => conf.uses_joint_termination())
    }
}
