//! A test of the names of plugins.
use crate::compared::holds;
use plugin_settings::PluginKind;

/// Whether a word is the name of a kind that it names.
fn is_named(word: &str) -> bool {
    match PluginKind::of(word) {
        Some(kind) => kind.name() == word,
        None => false,
    }
}

/// A name is that of its kind, and a word that is no name has none. A clause of `PluginKind` says this of every
/// plugin.
#[test]
fn a_name_is_that_of_its_kind(rt: HostRuntime) {
    holds(&rt, is_named("filter"));
    holds(&rt, PluginKind::of("").is_none());
    holds(&rt, PluginKind::of("filters").is_none());
}
