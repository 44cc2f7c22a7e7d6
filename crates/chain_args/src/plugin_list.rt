//! The list of the plugins of a chain.

ghost use Rattle.std.specs.Prelude.{◌≡◌};

use plugin_settings::PluginItem;
use std::marker::Model;

/// The plugins of a chain. Contracts see the list.
#[derive(Drop)]
pub struct PluginList {
    plugins: Vec<PluginItem>,
}

impl Model for PluginList {
    ghost use Rattle.std.specs.Prelude.{List};
    ghost use Rattle.plugin_settings.specs.declared.plugin_item.PluginItem.{PluginItem};

    ghost Value = { List PluginItem };

    ghost view = { λ l. l.plugins.items };
}

impl PluginList {
    /// The list of these plugins. It allocates nothing.
    pub fn of(plugins: Vec<PluginItem>) -> PluginList
        ensures { result ≡ plugins.items }
    {
        PluginList { plugins }
    }

    /// The plugins as a slice.
    pub fn as_slice(&self) -> &[PluginItem]
        ensures { result.now ≡ self.now }
    {
        self.plugins.as_slice()
    }

    /// The plugins as a `Vec`. It allocates nothing.
    pub fn into_vec(self) -> Vec<PluginItem>
        ensures { result.items ≡ self }
    {
        let PluginList { plugins } = self;
        plugins
    }
}
