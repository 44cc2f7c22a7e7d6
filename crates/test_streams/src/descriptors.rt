//! Descriptors, by tag and bytes.

use crate::page::PidPage;
use ts_bits::DescriptorList;

/// Writes descriptors: the tag, and the bytes after the length.
pub fn write_descriptors(page: &mut PidPage, descriptors: &DescriptorList) {
    for descriptor in descriptors.as_slice() {
        page.begin("descriptor");
        page.value(&descriptor.tag());
        page.bytes(descriptor.body());
        page.end();
    }
}
