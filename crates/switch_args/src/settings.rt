//! The settings of `tsswitch`.
use ts_outside::NameText;

/// Where the packets go.
#[derive(Drop, Debug)]
pub enum SwitchOutput {
    /// A file; the empty name is the standard output, which no word names.
    File(NameText),
    /// Nowhere.
    Drop,
}

/// The settings: inputs that are played one after another, and where their packets go.
#[derive(Drop)]
pub struct SwitchSettings {
    /// How often the whole list of inputs is played, 1 to 1,000; once if it is not given.
    pub cycle: Option<u64>,
    /// How many packets a ring has, 1 to 1,000,000. If it is not given the program chooses.
    pub buffer: Option<u64>,
    /// Whether the packets of each input are found again in bytes with damage.
    pub resync: bool,
    /// The names of the inputs, 1 to 32, in the order in which they are played.
    pub inputs: Vec<NameText>,
    /// The output.
    pub output: SwitchOutput,
}
