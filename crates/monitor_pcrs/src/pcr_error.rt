//! What is wrong with a PCR after the one before on its PID.

/// What is wrong with a PCR after the one before on its PID.
#[derive(Clone, Copy, PartialEq, Eq)]
pub enum PcrError {
    /// PCR_error, 2.3 of ETSI TR 101 290: the step between both, in units of the 27 MHz clock, is 0 or more than 100 ms.
    Step(u64),
    /// PCR_accuracy_error, 2.4: by how many whole nanoseconds the step is off at the bit rate of the stream.
    Accuracy(u128),
}
