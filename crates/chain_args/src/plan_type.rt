//! The plan of a chain.

use crate::general_conf::GeneralConf;
use crate::input_conf::InputConf;
use crate::output_conf::OutputConf;
use crate::plugin_list::PluginList;

/// The plan of a command line: the chain from its input to its output.
#[derive(Drop)]
pub struct Plan {
    /// The general options.
    pub general: GeneralConf,
    /// The input; without `-I` it is standard input, the file with the empty name.
    pub input: InputConf,
    /// The plugins in their order, at most 62.
    pub plugins: PluginList,
    /// The output; without `-O` it is standard output, the file with the empty name.
    pub output: OutputConf,
}
