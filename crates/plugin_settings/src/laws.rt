//! Laws of the plugins that the lists `uses_joint`, `table_file_of` and `is_silent` do not name.
ghost use Rattle.std.specs.Prelude.{◌≡◌, ℕ, List, None, false, true};
ghost use Rattle.ts_packet.specs.declared.cell.Cell.{Cell};
ghost use Rattle.plugin_settings.specs.declared.plugin_conf.PluginConf.{PluginConf};
ghost use Rattle.plugin_trait.specs.PlacedLines.{IsSilent};
ghost use Rattle.plugin_settings.specs.Items.{is_silent_item, rule_of_item};
ghost use Rattle.plugin_settings.specs.Plugins.{rule_of, table_file_of, uses_joint};
ghost use Rattle.plugin_settings.specs.declared.plugin_item.PluginItem.{PluginItem};

/// A plugin that does not use joint termination never agrees to a common end. A law; it runs nothing.
pub fn only_joint_agrees()
    ensures { (conf : PluginConf) (sections : List (List ℕ)) (history : List Cell)
        → uses_joint conf ≡ false → (rule_of conf sections).agrees history ≡ false }
{}

/// A plugin whose settings name no file has one rule, for any sections. A law; it runs nothing.
pub fn only_named_sections_count()
    ensures { (conf : PluginConf) (one other : List (List ℕ))
        → table_file_of conf ≡ None → rule_of conf one ≡ rule_of conf other }
{}

/// A silent plugin (`is_silent_item`) has a rule with neither lines nor a summary, whether it uses labels or not. Its `note`
/// and its `summary` are `Ok`, since `AnyPlugin::of` makes it silent. A law; it runs nothing.
pub fn silent_plugins_report_nothing()
    ensures { (item : PluginItem) (sections : List (List ℕ))
        → is_silent_item item ≡ true → IsSilent (rule_of_item item sections) }
{}
