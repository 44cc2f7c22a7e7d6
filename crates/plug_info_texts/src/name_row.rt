//! Names of stream types, service types, codecs and PIDs.
ghost use Rattle.std.specs.Prelude.{◌≡◌, map, option_map};
ghost use Rattle.plug_info_texts.specs.InfoNames.{codec_names, extension_names, pid_names, service_type_names, stream_type_names, text_for};
ghost use Rattle.plug_info_texts.specs.NameRows.{named};

/// A number and its name.
#[derive(Clone, Copy)]
pub enum NameRow<'a> {
    /// A number with its name.
    Named(u16, &'a str),
}

// Names of stream types.
static STREAM_TYPES: [NameRow; 59] = [
    NameRow::Named(0x01, "MPEG-1 video"),
    NameRow::Named(0x02, "MPEG-2 video"),
    NameRow::Named(0x03, "MPEG-1 audio"),
    NameRow::Named(0x04, "MPEG-2 audio"),
    NameRow::Named(0x05, "private sections"),
    NameRow::Named(0x06, "private data"),
    NameRow::Named(0x07, "MHEG"),
    NameRow::Named(0x08, "DSM-CC"),
    NameRow::Named(0x09, "H.222.1"),
    NameRow::Named(0x0A, "DSM-CC multi-protocol"),
    NameRow::Named(0x0B, "DSM-CC U-N messages"),
    NameRow::Named(0x0C, "DSM-CC stream descriptors"),
    NameRow::Named(0x0D, "DSM-CC sections"),
    NameRow::Named(0x0E, "auxiliary data"),
    NameRow::Named(0x0F, "AAC audio"),
    NameRow::Named(0x10, "MPEG-4 video"),
    NameRow::Named(0x11, "AAC audio in LATM"),
    NameRow::Named(0x12, "MPEG-4 systems in PES packets"),
    NameRow::Named(0x13, "MPEG-4 systems in sections"),
    NameRow::Named(0x14, "DSM-CC synchronized download"),
    NameRow::Named(0x15, "metadata in PES packets"),
    NameRow::Named(0x16, "metadata in sections"),
    NameRow::Named(0x17, "metadata in a data carousel"),
    NameRow::Named(0x18, "metadata in an object carousel"),
    NameRow::Named(0x19, "metadata in a synchronized download"),
    NameRow::Named(0x1A, "MPEG-2 IPMP"),
    NameRow::Named(0x1B, "AVC video"),
    NameRow::Named(0x1C, "MPEG-4 audio"),
    NameRow::Named(0x1D, "MPEG-4 text"),
    NameRow::Named(0x1E, "auxiliary video"),
    NameRow::Named(0x1F, "SVC video"),
    NameRow::Named(0x20, "MVC video"),
    NameRow::Named(0x21, "JPEG 2000 video"),
    NameRow::Named(0x22, "MPEG-2 video of another view"),
    NameRow::Named(0x23, "AVC video of another view"),
    NameRow::Named(0x24, "HEVC video"),
    NameRow::Named(0x25, "HEVC temporal subset"),
    NameRow::Named(0x26, "MVCD video"),
    NameRow::Named(0x27, "timeline and external media"),
    NameRow::Named(0x28, "MV-HEVC enhancement"),
    NameRow::Named(0x29, "MV-HEVC temporal enhancement"),
    NameRow::Named(0x2A, "SHVC enhancement"),
    NameRow::Named(0x2B, "SHVC temporal enhancement"),
    NameRow::Named(0x2C, "green metadata in sections"),
    NameRow::Named(0x2D, "MPEG-H audio"),
    NameRow::Named(0x2E, "MPEG-H audio, auxiliary"),
    NameRow::Named(0x2F, "quality metadata in sections"),
    NameRow::Named(0x30, "media orchestration in sections"),
    NameRow::Named(0x31, "HEVC tiles"),
    NameRow::Named(0x32, "JPEG XS video"),
    NameRow::Named(0x33, "VVC video"),
    NameRow::Named(0x34, "VVC temporal subset"),
    NameRow::Named(0x35, "EVC video"),
    NameRow::Named(0x36, "LCEVC video"),
    NameRow::Named(0x7F, "IPMP"),
    NameRow::Named(0x81, "ATSC AC-3 audio"),
    NameRow::Named(0x86, "SCTE 35 splice information"),
    NameRow::Named(0x87, "ATSC enhanced AC-3 audio"),
    NameRow::Named(0x8A, "DTS audio"),
];

// Names of service types.
static SERVICE_TYPES: [NameRow; 29] = [
    NameRow::Named(0x01, "digital television"),
    NameRow::Named(0x02, "digital radio sound"),
    NameRow::Named(0x03, "teletext"),
    NameRow::Named(0x04, "NVOD reference"),
    NameRow::Named(0x05, "NVOD time-shifted"),
    NameRow::Named(0x06, "mosaic"),
    NameRow::Named(0x07, "FM radio"),
    NameRow::Named(0x08, "DVB SRM"),
    NameRow::Named(0x0A, "advanced codec digital radio sound"),
    NameRow::Named(0x0B, "AVC mosaic"),
    NameRow::Named(0x0C, "data broadcast"),
    NameRow::Named(0x0D, "common interface"),
    NameRow::Named(0x0E, "RCS map"),
    NameRow::Named(0x0F, "RCS FLS"),
    NameRow::Named(0x10, "DVB MHP"),
    NameRow::Named(0x11, "MPEG-2 HD digital television"),
    NameRow::Named(0x16, "AVC SD digital television"),
    NameRow::Named(0x17, "AVC SD NVOD time-shifted"),
    NameRow::Named(0x18, "AVC SD NVOD reference"),
    NameRow::Named(0x19, "AVC HD digital television"),
    NameRow::Named(0x1A, "AVC HD NVOD time-shifted"),
    NameRow::Named(0x1B, "AVC HD NVOD reference"),
    NameRow::Named(0x1C, "AVC HD stereoscopic digital television"),
    NameRow::Named(0x1D, "AVC HD stereoscopic NVOD time-shifted"),
    NameRow::Named(0x1E, "AVC HD stereoscopic NVOD reference"),
    NameRow::Named(0x1F, "HEVC digital television"),
    NameRow::Named(0x20, "HEVC UHD digital television"),
    NameRow::Named(0x21, "VVC digital television"),
    NameRow::Named(0x22, "AVS3 digital television"),
];

// Names of codecs and kinds of components, by descriptor tag.
static CODECS: [NameRow; 11] = [
    NameRow::Named(0x28, "AVC"),
    NameRow::Named(0x2B, "MPEG-2 AAC"),
    NameRow::Named(0x38, "HEVC"),
    NameRow::Named(0x39, "VVC"),
    NameRow::Named(0x46, "VBI teletext"),
    NameRow::Named(0x56, "teletext"),
    NameRow::Named(0x59, "subtitles"),
    NameRow::Named(0x6A, "AC-3"),
    NameRow::Named(0x7A, "enhanced AC-3"),
    NameRow::Named(0x7B, "DTS"),
    NameRow::Named(0x7C, "AAC"),
];

// Names of codecs, by descriptor_tag_extension.
static EXTENSIONS: [NameRow; 4] = [
    NameRow::Named(0x0E, "DTS-HD"),
    NameRow::Named(0x15, "AC-4"),
    NameRow::Named(0x20, "TTML"),
    NameRow::Named(0x21, "DTS-UHD"),
];

// Names of PIDs.
static PIDS: [NameRow; 17] = [
    NameRow::Named(0, "PAT"),
    NameRow::Named(1, "CAT"),
    NameRow::Named(2, "TSDT"),
    NameRow::Named(3, "IPMP"),
    NameRow::Named(16, "NIT"),
    NameRow::Named(17, "SDT, BAT"),
    NameRow::Named(18, "EIT"),
    NameRow::Named(19, "RST"),
    NameRow::Named(20, "TDT, TOT"),
    NameRow::Named(21, "network synchronization"),
    NameRow::Named(22, "RNT"),
    NameRow::Named(27, "SAT"),
    NameRow::Named(28, "inband signalling"),
    NameRow::Named(29, "measurement"),
    NameRow::Named(30, "DIT"),
    NameRow::Named(31, "SIT"),
    NameRow::Named(8191, "null"),
];

// The name of a number in the first row that has it, if there is one.
fn name_for<'a>(rows: &[NameRow<'a>], wanted: u16) -> Option<&'a str>
    ensures { option_map (λ name. name.now) result ≡ text_for (map named rows.entry.now) wanted }
{
    for row in rows {
        let NameRow::Named(number, name) = *row;
        if number == wanted {
            return Some(name);
        }
    }
    None
}

/// The name of a stream type.
pub fn stream_type_name(kind: u8) -> Option<&'static str>
    ensures { option_map (λ name. name.now) result ≡ text_for stream_type_names kind }
{
    name_for(&STREAM_TYPES, u16::from(kind))
}

/// The name of a service type.
pub fn service_type_name(kind: u8) -> Option<&'static str>
    ensures { option_map (λ name. name.now) result ≡ text_for service_type_names kind }
{
    name_for(&SERVICE_TYPES, u16::from(kind))
}

/// The codec or kind of component that a descriptor of this tag identifies.
pub fn codec_name(tag: u8) -> Option<&'static str>
    ensures { option_map (λ name. name.now) result ≡ text_for codec_names tag }
{
    name_for(&CODECS, u16::from(tag))
}

/// The codec that an extension_descriptor with this descriptor_tag_extension identifies.
pub fn extension_name(extension: u8) -> Option<&'static str>
    ensures { option_map (λ name. name.now) result ≡ text_for extension_names extension }
{
    name_for(&EXTENSIONS, u16::from(extension))
}

/// The name of a PID.
pub fn pid_name(pid: u16) -> Option<&'static str>
    ensures { option_map (λ name. name.now) result ≡ text_for pid_names pid }
{
    name_for(&PIDS, pid)
}
