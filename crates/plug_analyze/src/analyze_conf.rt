//! The settings of `analyze`: there are none.
/// Settings of `analyze`, which has none.
#[derive(Drop)]
pub struct AnalyzeConf {}
