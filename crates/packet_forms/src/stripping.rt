//! Stripping the bytes before and after packets.
ghost use Rattle.std.specs.Prelude.{◌≡◌, ◌<◌, ◌≤◌, length, take};
ghost use Rattle.packet_forms.specs.Stripped.{unit, stripped_from};

use crate::forms::Form;

/// Moves the bytes of packets to the front, in their order, and returns their number. Before the first of `bytes`
/// there were `at` bytes of a unit. The bytes after those that were moved may have changed.
pub fn strip(form: Form, at: usize, bytes: &mut [u8]) -> usize
    requires { at < unit form }
    ensures within { result ≤ length bytes.old }
    ensures stripped { take result bytes.new ≡ stripped_from form at bytes.old }
{
    if let Form::Ts = form {
        return bytes.len();
    }
    let unit = form.unit();
    let mut from = 0;
    let mut to = 0;
    while from < bytes.len() {
        let before = form.to_packet((at + from) % unit).min(bytes.len() - from);
        let begin = from + before;
        let count = form.in_packet((at + begin) % unit).min(bytes.len() - begin);
        bytes.copy_within(begin..begin + count, to);
        to += count;
        from = begin + count;
    }
    to
}
