//! The pages of descriptors that have no struct, or that JSON shows with reserved bits, in the order of their tags. Written by tools/pages from pages.txt.

use ts_fields::{Field, ItemLayout, Kind, Layout};
use ts_groups::{Condition, FieldGroup};
use ts_item_forms::ItemForm;
use ts_pages::rows;

/// How a video component is coded (ISO/IEC 13818-1, 2.6.2).
pub static VIDEO_STREAM: Layout = Layout {
    tag: 0x02,
    name: "video_stream_descriptor",
    head: &[
        Field {
            name: "multiple_frame_rate",
            kind: Kind::Flag,
            absent: None,
            range: None,
        },
        Field {
            name: "frame_rate_code",
            kind: Kind::Number(4),
            absent: None,
            range: None,
        },
        Field {
            name: "MPEG_1_only",
            kind: Kind::Flag,
            absent: Some(0),
            range: None,
        },
        Field {
            name: "constrained_parameter",
            kind: Kind::Flag,
            absent: None,
            range: None,
        },
        Field {
            name: "still_picture",
            kind: Kind::Flag,
            absent: None,
            range: None,
        },
    ],
    items: None,
    counted: None,
};

/// The fields of the video_stream_descriptor by what its first fields say (ISO/IEC 13818-1, 2.6.2).
pub static VIDEO_STREAM_GROUPS: &[FieldGroup] = &[FieldGroup {
    when: Some(Condition {
        place: 2,
        values: &[0],
    }),
    rows: rows! {
            "profile_and_level_indication" Number(8);
            "chroma_format" Number(2);
            "frame_rate_extension" Flag;
            "reserved" Reserved(5);
        },
}];

/// How an audio component is coded (ISO/IEC 13818-1, 2.6.4).
pub static AUDIO_STREAM: Layout = Layout {
    tag: 0x03,
    name: "audio_stream_descriptor",
    head: rows! {
        "free_format" Flag;
        "ID" Number(1);
        "layer" Number(2);
        "variable_rate_audio" Flag;
        "reserved" Reserved(3);
    },
    items: None,
    counted: None,
};

/// The PID of the ECMs or the EMMs of a conditional access system (ISO/IEC 13818-1, 2.6.16).
pub static CA: Layout = Layout {
    tag: 0x09,
    name: "CA_descriptor",
    head: rows! {
        "CA_system_id" Number(16);
        "reserved" Reserved(3);
        "CA_PID" Number(13);
        "private_data" Hex;
    },
    items: None,
    counted: None,
};

/// How accurate the clock of a program is (ISO/IEC 13818-1, 2.6.20).
pub static SYSTEM_CLOCK: Layout = Layout {
    tag: 0x0B,
    name: "system_clock_descriptor",
    head: rows! {
        "external_clock_reference" Flag;
        "reserved" Reserved(1);
        "clock_accuracy_integer" Number(6);
        "clock_accuracy_exponent" Number(3);
        "reserved_2" Reserved(5);
    },
    items: None,
    counted: None,
};

/// How full the multiplex buffer of a decoder is (ISO/IEC 13818-1, 2.6.22).
pub static MULTIPLEX_BUFFER_UTILIZATION: Layout = Layout {
    tag: 0x0C,
    name: "multiplex_buffer_utilization_descriptor",
    head: rows! {
        "bound_valid_flag" Flag;
        "LTW_offset_lower_bound" Number(15);
        "reserved" Reserved(1);
        "LTW_offset_upper_bound" Number(15);
    },
    items: None,
    counted: None,
};

/// The maximum bit rate of a component, in units of 50 bytes per second (ISO/IEC 13818-1, 2.6.26).
pub static MAXIMUM_BITRATE: Layout = Layout {
    tag: 0x0E,
    name: "maximum_bitrate_descriptor",
    head: rows! {
        "reserved" Reserved(2);
        "maximum_bitrate" Number(22);
    },
    items: None,
    counted: None,
};

/// A number of whoever defines private data (ISO/IEC 13818-1, 2.6.28).
pub static PRIVATE_DATA_INDICATOR: Layout = Layout {
    tag: 0x0F,
    name: "private_data_indicator_descriptor",
    head: rows! {
        "private_data_indicator" Number(32);
    },
    items: None,
    counted: None,
};

/// The size and the leak rate of a smoothing buffer (ISO/IEC 13818-1, 2.6.30).
pub static SMOOTHING_BUFFER: Layout = Layout {
    tag: 0x10,
    name: "smoothing_buffer_descriptor",
    head: rows! {
        "reserved" Reserved(2);
        "sb_leak_rate" Number(22);
        "reserved_2" Reserved(2);
        "sb_size" Number(22);
    },
    items: None,
    counted: None,
};

/// Whether a decoder empties its multiplex buffer by the leak method (ISO/IEC 13818-1, 2.6.32).
pub static STD: Layout = Layout {
    tag: 0x11,
    name: "STD_descriptor",
    head: rows! {
        "reserved" Reserved(7);
        "leak_valid" Flag;
    },
    items: None,
    counted: None,
};

/// The profile and level of an MPEG-4 video component (ISO/IEC 13818-1, 2.6.36).
pub static MPEG4_VIDEO: Layout = Layout {
    tag: 0x1B,
    name: "MPEG4_video_descriptor",
    head: rows! {
        "MPEG4_visual_profile_and_level" Number(8);
    },
    items: None,
    counted: None,
};

/// The profile and level of an MPEG-4 audio component (ISO/IEC 13818-1, 2.6.38).
pub static MPEG4_AUDIO: Layout = Layout {
    tag: 0x1C,
    name: "MPEG4_audio_descriptor",
    head: rows! {
        "MPEG4_audio_profile_and_level" Number(8);
    },
    items: None,
    counted: None,
};

/// The profile and level of an H.264 video component (ISO/IEC 13818-1, 2.6.64).
pub static AVC_VIDEO: Layout = Layout {
    tag: 0x28,
    name: "AVC_video_descriptor",
    head: rows! {
        "profile_idc" Number(8);
        "constraint_set0" Flag;
        "constraint_set1" Flag;
        "constraint_set2" Flag;
        "constraint_set3" Flag;
        "constraint_set4" Flag;
        "constraint_set5" Flag;
        "AVC_compatible_flags" Number(2);
        "level_idc" Number(8);
        "AVC_still_present" Flag;
        "AVC_24_hour_picture" Flag;
        "Frame_Packing_SEI_not_present" Flag;
        "reserved" Reserved(5);
    },
    items: None,
    counted: None,
};

/// The profile and the channels of an MPEG-2 AAC audio component (ISO/IEC 13818-1, 2.6.68).
pub static MPEG2_AAC_AUDIO: Layout = Layout {
    tag: 0x2B,
    name: "MPEG2_AAC_audio_descriptor",
    head: rows! {
        "MPEG2_AAC_profile" Number(8);
        "MPEG2_AAC_channel_configuration" Number(8);
        "MPEG2_AAC_additional_information" Number(8);
    },
    items: None,
    counted: None,
};

/// The profile and level of an H.265 video component (ISO/IEC 13818-1, 2.6.95).
pub static HEVC_VIDEO: Layout = Layout {
    tag: 0x38,
    name: "HEVC_video_descriptor",
    head: &[
        Field {
            name: "profile_space",
            kind: Kind::Number(2),
            absent: None,
            range: None,
        },
        Field {
            name: "tier",
            kind: Kind::Flag,
            absent: None,
            range: None,
        },
        Field {
            name: "profile_idc",
            kind: Kind::Number(5),
            absent: None,
            range: None,
        },
        Field {
            name: "profile_compatibility_indication",
            kind: Kind::Number(32),
            absent: None,
            range: None,
        },
        Field {
            name: "progressive_source",
            kind: Kind::Flag,
            absent: None,
            range: None,
        },
        Field {
            name: "interlaced_source",
            kind: Kind::Flag,
            absent: None,
            range: None,
        },
        Field {
            name: "non_packed_constraint",
            kind: Kind::Flag,
            absent: None,
            range: None,
        },
        Field {
            name: "frame_only_constraint",
            kind: Kind::Flag,
            absent: None,
            range: None,
        },
        Field {
            name: "copied_44bits",
            kind: Kind::Number(44),
            absent: None,
            range: None,
        },
        Field {
            name: "level_idc",
            kind: Kind::Number(8),
            absent: None,
            range: None,
        },
        Field {
            name: "temporal_layer_subset_flag",
            kind: Kind::Flag,
            absent: Some(0),
            range: None,
        },
        Field {
            name: "HEVC_still_present",
            kind: Kind::Flag,
            absent: None,
            range: None,
        },
        Field {
            name: "HEVC_24hr_picture_present",
            kind: Kind::Flag,
            absent: None,
            range: None,
        },
        Field {
            name: "sub_pic_hrd_params_not_present",
            kind: Kind::Flag,
            absent: None,
            range: None,
        },
        Field {
            name: "reserved",
            kind: Kind::Reserved(2),
            absent: None,
            range: None,
        },
        Field {
            name: "HDR_WCG_idc",
            kind: Kind::Number(2),
            absent: None,
            range: None,
        },
    ],
    items: None,
    counted: None,
};

/// The fields of the HEVC_video_descriptor by what its first fields say (ISO/IEC 13818-1, 2.6.95).
pub static HEVC_VIDEO_GROUPS: &[FieldGroup] = &[FieldGroup {
    when: Some(Condition {
        place: 10,
        values: &[1],
    }),
    rows: rows! {
            "temporal_id_min" Number(3);
            "reserved_2" Reserved(5);
            "temporal_id_max" Number(3);
            "reserved_3" Reserved(5);
        },
}];

/// Bytes that mean nothing (ETSI EN 300 468, 6.2.40).
pub static STUFFING: Layout = Layout {
    tag: 0x42,
    name: "stuffing_descriptor",
    head: rows! {
        "stuffing" Hex;
    },
    items: None,
    counted: None,
};

/// How a cable carries a transport stream (ETSI EN 300 468, 6.2.13.1).
pub static CABLE_DELIVERY_SYSTEM: Layout = Layout {
    tag: 0x44,
    name: "cable_delivery_system_descriptor",
    head: rows! {
        "frequency" Decimal(8);
        "reserved" Reserved(12);
        "FEC_outer" Number(4);
        "modulation" Number(8);
        "symbol_rate" Decimal(7);
        "FEC_inner" Number(4);
    },
    items: None,
    counted: None,
};

/// What the vertical blanking interval has, in lines of each field (ETSI EN 300 468, 6.2.47).
pub static VBI_DATA: Layout = Layout {
    tag: 0x45,
    name: "VBI_data_descriptor",
    head: rows! {},
    items: Some(ItemLayout {
        name: "service",
        rows: rows! {
            "data_service_id" Number(8);
            "lines" CountedHex;
        },
    }),
    counted: None,
};

/// The Teletext pages of a component for the vertical blanking interval (ETSI EN 300 468, 6.2.48).
pub static VBI_TELETEXT: Layout = Layout {
    tag: 0x46,
    name: "VBI_teletext_descriptor",
    head: rows! {},
    items: Some(ItemLayout {
        name: "teletext",
        rows: rows! {
            "language_code" Language;
            "teletext_type" Number(5);
            "teletext_magazine_number" Number(3);
            "teletext_page_number" Number(8);
        },
    }),
    counted: None,
};

/// The countries that a service is meant for, or is not (ETSI EN 300 468, 6.2.10).
pub static COUNTRY_AVAILABILITY: Layout = Layout {
    tag: 0x49,
    name: "country_availability_descriptor",
    head: rows! {
        "country_availability" Flag;
        "reserved" Reserved(7);
    },
    items: Some(ItemLayout {
        name: "country",
        rows: rows! {
            "country_code" Language;
        },
    }),
    counted: None,
};

/// Another service, and what it has to do with this one (ETSI EN 300 468, 6.2.19).
pub static LINKAGE: Layout = Layout {
    tag: 0x4A,
    name: "linkage_descriptor",
    head: rows! {
        "transport_stream_id" Number(16);
        "original_network_id" Number(16);
        "service_id" Number(16);
        "linkage_type" Number(8);
        "private_data" Hex;
    },
    items: None,
    counted: None,
};

/// The services that show the same events later (ETSI EN 300 468, 6.2.26).
pub static NVOD_REFERENCE: Layout = Layout {
    tag: 0x4B,
    name: "NVOD_reference_descriptor",
    head: rows! {},
    items: Some(ItemLayout {
        name: "service",
        rows: rows! {
            "transport_stream_id" Number(16);
            "original_network_id" Number(16);
            "service_id" Number(16);
        },
    }),
    counted: None,
};

/// The service of whose events this one shows later copies (ETSI EN 300 468, 6.2.45).
pub static TIME_SHIFTED_SERVICE: Layout = Layout {
    tag: 0x4C,
    name: "time_shifted_service_descriptor",
    head: rows! {
        "reference_service_id" Number(16);
    },
    items: None,
    counted: None,
};

/// A part of the long text on an event, with named items (ETSI EN 300 468, 6.2.15).
pub static EXTENDED_EVENT: Layout = Layout {
    tag: 0x4E,
    name: "extended_event_descriptor",
    head: rows! {
        "descriptor_number" Number(4);
        "last_descriptor_number" Number(4);
        "language_code" Language;
        "text" CountedText;
    },
    items: Some(ItemLayout {
        name: "item",
        rows: rows! {
            "item_description" CountedText;
            "item" CountedText;
        },
    }),
    counted: Some(3),
};

/// The event of which this one is a later copy (ETSI EN 300 468, 6.2.44).
pub static TIME_SHIFTED_EVENT: Layout = Layout {
    tag: 0x4F,
    name: "time_shifted_event_descriptor",
    head: rows! {
        "reference_service_id" Number(16);
        "reference_event_id" Number(16);
    },
    items: None,
    counted: None,
};

/// The local time of regions, and when it changes next (ETSI EN 300 468, 6.2.20).
pub static LOCAL_TIME_OFFSET: Layout = Layout {
    tag: 0x58,
    name: "local_time_offset_descriptor",
    head: rows! {},
    items: Some(ItemLayout {
        name: "region",
        rows: rows! {
            "country_code" Language;
            "country_region_id" Number(6);
            "reserved" Reserved(1);
            "local_time_offset_polarity" Number(1);
            "local_time_offset" Decimal(4);
            "time_of_change" Start;
            "next_time_offset" Decimal(4);
        },
    }),
    counted: None,
};

/// How a terrestrial transmitter carries a transport stream (ETSI EN 300 468, 6.2.13.4).
pub static TERRESTRIAL_DELIVERY_SYSTEM: Layout = Layout {
    tag: 0x5A,
    name: "terrestrial_delivery_system_descriptor",
    head: rows! {
        "centre_frequency" Number(32);
        "bandwidth" Number(3);
        "priority" Number(1);
        "time_slicing" Number(1);
        "MPE_FEC" Number(1);
        "reserved" Reserved(2);
        "constellation" Number(2);
        "hierarchy" Number(3);
        "code_rate_HP" Number(3);
        "code_rate_LP" Number(3);
        "guard_interval" Number(2);
        "transmission_mode" Number(2);
        "other_frequency" Number(1);
        "reserved_2" Reserved(32);
    },
    items: None,
    counted: None,
};

/// The name of a network in several languages (ETSI EN 300 468, 6.2.24).
pub static MULTILINGUAL_NETWORK_NAME: Layout = Layout {
    tag: 0x5B,
    name: "multilingual_network_name_descriptor",
    head: rows! {},
    items: Some(ItemLayout {
        name: "language",
        rows: rows! {
            "code" Language;
            "network_name" CountedText;
        },
    }),
    counted: None,
};

/// The name of a bouquet in several languages (ETSI EN 300 468, 6.2.22).
pub static MULTILINGUAL_BOUQUET_NAME: Layout = Layout {
    tag: 0x5C,
    name: "multilingual_bouquet_name_descriptor",
    head: rows! {},
    items: Some(ItemLayout {
        name: "language",
        rows: rows! {
            "code" Language;
            "bouquet_name" CountedText;
        },
    }),
    counted: None,
};

/// The names of a service and its provider in several languages (ETSI EN 300 468, 6.2.25).
pub static MULTILINGUAL_SERVICE_NAME: Layout = Layout {
    tag: 0x5D,
    name: "multilingual_service_name_descriptor",
    head: rows! {},
    items: Some(ItemLayout {
        name: "language",
        rows: rows! {
            "code" Language;
            "service_provider_name" CountedText;
            "service_name" CountedText;
        },
    }),
    counted: None,
};

/// What a component is, in several languages (ETSI EN 300 468, 6.2.23).
pub static MULTILINGUAL_COMPONENT: Layout = Layout {
    tag: 0x5E,
    name: "multilingual_component_descriptor",
    head: rows! {
        "component_tag" Number(8);
    },
    items: Some(ItemLayout {
        name: "language",
        rows: rows! {
            "code" Language;
            "description" CountedText;
        },
    }),
    counted: None,
};

/// Where a service has moved to (ETSI EN 300 468, 6.2.36).
pub static SERVICE_MOVE: Layout = Layout {
    tag: 0x60,
    name: "service_move_descriptor",
    head: rows! {
        "new_original_network_id" Number(16);
        "new_transport_stream_id" Number(16);
        "new_service_id" Number(16);
    },
    items: None,
    counted: None,
};

/// The size and the leak rate of the smoothing buffer of an event (ETSI EN 300 468, 6.2.38).
pub static SHORT_SMOOTHING_BUFFER: Layout = Layout {
    tag: 0x61,
    name: "short_smoothing_buffer_descriptor",
    head: rows! {
        "sb_size" Number(2);
        "sb_leak_rate" Number(6);
        "DVB_reserved" Hex;
    },
    items: None,
    counted: None,
};

/// Further frequencies on which a transport stream is sent (ETSI EN 300 468, 6.2.17).
pub static FREQUENCY_LIST: Layout = Layout {
    tag: 0x62,
    name: "frequency_list_descriptor",
    head: rows! {
        "reserved" Reserved(6);
        "coding_type" Number(2);
    },
    items: Some(ItemLayout {
        name: "frequency",
        rows: rows! {
            "centre_frequency" Number(32);
        },
    }),
    counted: None,
};

/// The bit rates of a stream that was taken out of another (ETSI EN 300 468, 7.2.1).
pub static PARTIAL_TRANSPORT_STREAM: Layout = Layout {
    tag: 0x63,
    name: "partial_transport_stream_descriptor",
    head: rows! {
        "reserved" Reserved(2);
        "peak_rate" Number(22);
        "reserved_2" Reserved(2);
        "minimum_overall_smoothing_rate" Number(22);
        "reserved_3" Reserved(2);
        "maximum_overall_smoothing_buffer" Number(14);
    },
    items: None,
    counted: None,
};

/// What a data broadcast is, and where (ETSI EN 300 468, 6.2.11).
pub static DATA_BROADCAST: Layout = Layout {
    tag: 0x64,
    name: "data_broadcast_descriptor",
    head: rows! {
        "data_broadcast_id" Number(16);
        "component_tag" Number(8);
        "selector" CountedHex;
        "language_code" Language;
        "text" CountedText;
    },
    items: None,
    counted: None,
};

/// How a service is scrambled (ETSI EN 300 468, 6.2.32).
pub static SCRAMBLING: Layout = Layout {
    tag: 0x65,
    name: "scrambling_descriptor",
    head: rows! {
        "scrambling_mode" Number(8);
    },
    items: None,
    counted: None,
};

/// What the data of a component are (ETSI EN 300 468, 6.2.12).
pub static DATA_BROADCAST_ID: Layout = Layout {
    tag: 0x66,
    name: "data_broadcast_id_descriptor",
    head: rows! {
        "data_broadcast_id" Number(16);
        "id_selector" Hex;
    },
    items: None,
    counted: None,
};

/// The label by which a recorder knows an event (ETSI EN 300 468, 6.2.30).
pub static PDC: Layout = Layout {
    tag: 0x69,
    name: "PDC_descriptor",
    head: rows! {
        "reserved" Reserved(4);
        "day" Number(5);
        "month" Number(4);
        "hour" Number(5);
        "minute" Number(6);
    },
    items: None,
    counted: None,
};

/// What an AC-3 audio component is (ETSI EN 300 468, D.3).
pub static AC3: Layout = Layout {
    tag: 0x6A,
    name: "AC3_descriptor",
    head: &[
        Field {
            name: "component_type_flag",
            kind: Kind::Flag,
            absent: Some(0),
            range: None,
        },
        Field {
            name: "bsid_flag",
            kind: Kind::Flag,
            absent: Some(0),
            range: None,
        },
        Field {
            name: "mainid_flag",
            kind: Kind::Flag,
            absent: Some(0),
            range: None,
        },
        Field {
            name: "asvc_flag",
            kind: Kind::Flag,
            absent: Some(0),
            range: None,
        },
        Field {
            name: "reserved",
            kind: Kind::Zeros(4),
            absent: None,
            range: None,
        },
    ],
    items: None,
    counted: None,
};

/// The fields of the AC3_descriptor by what its first fields say (ETSI EN 300 468, D.3).
pub static AC3_GROUPS: &[FieldGroup] = &[
    FieldGroup {
        when: Some(Condition {
            place: 0,
            values: &[1],
        }),
        rows: rows! {
            "component_type" Number(8);
        },
    },
    FieldGroup {
        when: Some(Condition {
            place: 1,
            values: &[1],
        }),
        rows: rows! {
            "bsid" Number(8);
        },
    },
    FieldGroup {
        when: Some(Condition {
            place: 2,
            values: &[1],
        }),
        rows: rows! {
            "mainid" Number(8);
        },
    },
    FieldGroup {
        when: Some(Condition {
            place: 3,
            values: &[1],
        }),
        rows: rows! {
            "asvc" Number(8);
        },
    },
    FieldGroup {
        when: None,
        rows: rows! {
            "additional_info" Hex;
        },
    },
];

/// What ancillary data an audio component has (ETSI EN 300 468, 6.2.2).
pub static ANCILLARY_DATA: Layout = Layout {
    tag: 0x6B,
    name: "ancillary_data_descriptor",
    head: rows! {
        "ancillary_data_identifier" Number(8);
    },
    items: None,
    counted: None,
};

/// The announcements that a service has, and where they are (ETSI EN 300 468, 6.2.3).
pub static ANNOUNCEMENT_SUPPORT: Layout = Layout {
    tag: 0x6E,
    name: "announcement_support_descriptor",
    head: rows! {
        "announcement_support_indicator" Number(16);
    },
    items: None,
    counted: None,
};

/// The items of the announcement_support_descriptor (ETSI EN 300 468, 6.2.3).
pub static ANNOUNCEMENT_SUPPORT_FORM: ItemForm = ItemForm {
    name: "announcement",
    head: rows! {
        "announcement_type" Number(4);
        "reserved" Reserved(1);
        "reference_type" Number(3);
    },
    groups: &[FieldGroup {
        when: Some(Condition {
            place: 2,
            values: &[1, 2, 3],
        }),
        rows: rows! {
                "original_network_id" Number(16);
                "transport_stream_id" Number(16);
                "service_id" Number(16);
                "component_tag" Number(8);
            },
    }],
    inner: None,
};

/// The applications whose table a component has (ETSI TS 102 809, 5.3.5.1).
pub static APPLICATION_SIGNALLING: Layout = Layout {
    tag: 0x6F,
    name: "application_signalling_descriptor",
    head: rows! {},
    items: Some(ItemLayout {
        name: "application",
        rows: rows! {
            "reserved" Reserved(1);
            "application_type" Number(15);
            "reserved_2" Reserved(3);
            "AIT_version_number" Number(5);
        },
    }),
    counted: None,
};

/// The name of a service for applications (ETSI TS 102 809, 6.2.1).
pub static SERVICE_IDENTIFIER: Layout = Layout {
    tag: 0x71,
    name: "service_identifier_descriptor",
    head: rows! {
        "service_identifier" Text;
    },
    items: None,
    counted: None,
};

/// The cells in which a service is there, or is not (ETSI EN 300 468, 6.2.34).
pub static SERVICE_AVAILABILITY: Layout = Layout {
    tag: 0x72,
    name: "service_availability_descriptor",
    head: rows! {
        "availability" Flag;
        "reserved" Reserved(7);
    },
    items: Some(ItemLayout {
        name: "cell",
        rows: rows! {
            "id" Number(16);
        },
    }),
    counted: None,
};

/// The authority that the names of contents begin with (ETSI TS 102 323, 6.3.3).
pub static DEFAULT_AUTHORITY: Layout = Layout {
    tag: 0x73,
    name: "default_authority_descriptor",
    head: rows! {
        "default_authority" Text;
    },
    items: None,
    counted: None,
};

/// The names of contents that an event belongs to (ETSI TS 102 323, 12.1).
pub static CONTENT_IDENTIFIER: Layout = Layout {
    tag: 0x76,
    name: "content_identifier_descriptor",
    head: rows! {},
    items: None,
    counted: None,
};

/// The items of the content_identifier_descriptor (ETSI TS 102 323, 12.1).
pub static CONTENT_IDENTIFIER_FORM: ItemForm = ItemForm {
    name: "CRID",
    head: rows! {
        "crid_type" Number(6);
        "crid_location" Number(2);
    },
    groups: &[
        FieldGroup {
            when: Some(Condition {
                place: 1,
                values: &[0],
            }),
            rows: rows! {
                "crid" CountedText;
            },
        },
        FieldGroup {
            when: Some(Condition {
                place: 1,
                values: &[1],
            }),
            rows: rows! {
                "crid_ref" Number(16);
            },
        },
    ],
    inner: None,
};

/// What a DVB-S2 receiver needs beside the satellite_delivery_system_descriptor (ETSI EN 300 468, 6.2.13.3).
pub static S2_SATELLITE_DELIVERY_SYSTEM: Layout = Layout {
    tag: 0x79,
    name: "S2_satellite_delivery_system_descriptor",
    head: &[
        Field {
            name: "scrambling_sequence_selector",
            kind: Kind::Flag,
            absent: Some(0),
            range: None,
        },
        Field {
            name: "multiple_input_stream_flag",
            kind: Kind::Flag,
            absent: Some(0),
            range: None,
        },
        Field {
            name: "reserved",
            kind: Kind::Zeros(1),
            absent: None,
            range: None,
        },
        Field {
            name: "not_timeslice_flag",
            kind: Kind::Flag,
            absent: Some(0),
            range: None,
        },
        Field {
            name: "reserved_2",
            kind: Kind::Reserved(2),
            absent: None,
            range: None,
        },
        Field {
            name: "TS_GS_mode",
            kind: Kind::Number(2),
            absent: None,
            range: None,
        },
    ],
    items: None,
    counted: None,
};

/// The fields of the S2_satellite_delivery_system_descriptor by what its first fields say (ETSI EN 300 468, 6.2.13.3).
pub static S2_SATELLITE_DELIVERY_SYSTEM_GROUPS: &[FieldGroup] = &[
    FieldGroup {
        when: Some(Condition {
            place: 0,
            values: &[1],
        }),
        rows: rows! {
            "reserved_3" Reserved(6);
            "scrambling_sequence_index" Number(18);
        },
    },
    FieldGroup {
        when: Some(Condition {
            place: 1,
            values: &[1],
        }),
        rows: rows! {
            "input_stream_identifier" Number(8);
        },
    },
    FieldGroup {
        when: Some(Condition {
            place: 3,
            values: &[0],
        }),
        rows: rows! {
            "timeslice_number" Number(8);
        },
    },
];

/// What an enhanced AC-3 audio component is (ETSI EN 300 468, D.5).
pub static ENHANCED_AC3: Layout = Layout {
    tag: 0x7A,
    name: "enhanced_AC3_descriptor",
    head: &[
        Field {
            name: "component_type_flag",
            kind: Kind::Flag,
            absent: Some(0),
            range: None,
        },
        Field {
            name: "bsid_flag",
            kind: Kind::Flag,
            absent: Some(0),
            range: None,
        },
        Field {
            name: "mainid_flag",
            kind: Kind::Flag,
            absent: Some(0),
            range: None,
        },
        Field {
            name: "asvc_flag",
            kind: Kind::Flag,
            absent: Some(0),
            range: None,
        },
        Field {
            name: "mixinfoexists",
            kind: Kind::Flag,
            absent: None,
            range: None,
        },
        Field {
            name: "substream1_flag",
            kind: Kind::Flag,
            absent: Some(0),
            range: None,
        },
        Field {
            name: "substream2_flag",
            kind: Kind::Flag,
            absent: Some(0),
            range: None,
        },
        Field {
            name: "substream3_flag",
            kind: Kind::Flag,
            absent: Some(0),
            range: None,
        },
    ],
    items: None,
    counted: None,
};

/// The fields of the enhanced_AC3_descriptor by what its first fields say (ETSI EN 300 468, D.5).
pub static ENHANCED_AC3_GROUPS: &[FieldGroup] = &[
    FieldGroup {
        when: Some(Condition {
            place: 0,
            values: &[1],
        }),
        rows: rows! {
            "component_type" Number(8);
        },
    },
    FieldGroup {
        when: Some(Condition {
            place: 1,
            values: &[1],
        }),
        rows: rows! {
            "bsid" Number(8);
        },
    },
    FieldGroup {
        when: Some(Condition {
            place: 2,
            values: &[1],
        }),
        rows: rows! {
            "mainid" Number(8);
        },
    },
    FieldGroup {
        when: Some(Condition {
            place: 3,
            values: &[1],
        }),
        rows: rows! {
            "asvc" Number(8);
        },
    },
    FieldGroup {
        when: Some(Condition {
            place: 5,
            values: &[1],
        }),
        rows: rows! {
            "substream1" Number(8);
        },
    },
    FieldGroup {
        when: Some(Condition {
            place: 6,
            values: &[1],
        }),
        rows: rows! {
            "substream2" Number(8);
        },
    },
    FieldGroup {
        when: Some(Condition {
            place: 7,
            values: &[1],
        }),
        rows: rows! {
            "substream3" Number(8);
        },
    },
    FieldGroup {
        when: None,
        rows: rows! {
            "additional_info" Hex;
        },
    },
];

/// How a DTS audio component is coded (ETSI EN 300 468, G.2.1).
pub static DTS: Layout = Layout {
    tag: 0x7B,
    name: "DTS_descriptor",
    head: rows! {
        "sample_rate_code" Number(4);
        "bit_rate_code" Number(6);
        "nblks" Number(7);
        "fsize" Number(14);
        "surround_mode" Number(6);
        "lfe_flag" Number(1);
        "extended_surround_flag" Number(2);
        "additional_info" Hex;
    },
    items: None,
    counted: None,
};

/// The profile and level of an AAC audio component (ETSI EN 300 468, H.2.1).
pub static AAC: Layout = Layout {
    tag: 0x7C,
    name: "AAC_descriptor",
    head: rows! {
        "profile_and_level" Number(8);
        "AAC_data" Hex;
    },
    items: None,
    counted: None,
};

/// What may be done with content that is in the clear (ETSI EN 300 468, 6.2.18).
pub static FTA_CONTENT_MANAGEMENT: Layout = Layout {
    tag: 0x7E,
    name: "FTA_content_management_descriptor",
    head: rows! {
        "user_defined" Flag;
        "reserved" Reserved(3);
        "do_not_scramble" Flag;
        "control_remote_access_over_internet" Number(2);
        "do_not_apply_revocation" Flag;
    },
    items: None,
    counted: None,
};

/// How DVB-T2 carries a transport stream (ETSI EN 300 468, 6.4.6.3).
pub static T2_DELIVERY_SYSTEM: Layout = Layout {
    tag: 0x04,
    name: "T2_delivery_system_descriptor",
    head: rows! {
        "plp_id" Number(8);
        "T2_system_id" Number(16);
        "T2_data" Hex;
    },
    items: None,
    counted: None,
};

/// What an audio component adds to a programme (ETSI EN 300 468, 6.4.11).
pub static SUPPLEMENTARY_AUDIO: Layout = Layout {
    tag: 0x06,
    name: "supplementary_audio_descriptor",
    head: &[
        Field {
            name: "mix_type",
            kind: Kind::Number(1),
            absent: None,
            range: None,
        },
        Field {
            name: "editorial_classification",
            kind: Kind::Number(5),
            absent: None,
            range: None,
        },
        Field {
            name: "reserved",
            kind: Kind::Reserved(1),
            absent: None,
            range: None,
        },
        Field {
            name: "language_code_present",
            kind: Kind::Flag,
            absent: Some(0),
            range: None,
        },
    ],
    items: None,
    counted: None,
};

/// The fields of the supplementary_audio_descriptor by what its first fields say (ETSI EN 300 468, 6.4.11).
pub static SUPPLEMENTARY_AUDIO_GROUPS: &[FieldGroup] = &[
    FieldGroup {
        when: Some(Condition {
            place: 3,
            values: &[1],
        }),
        rows: rows! {
            "language_code" Language;
        },
    },
    FieldGroup {
        when: None,
        rows: rows! {
            "private_data" Hex;
        },
    },
];

/// A text for viewers, by its number (ETSI EN 300 468, 6.4.7).
pub static MESSAGE: Layout = Layout {
    tag: 0x08,
    name: "message_descriptor",
    head: rows! {
        "message_id" Number(8);
        "language_code" Language;
        "text" Text;
    },
    items: None,
    counted: None,
};

/// How DVB-C2 carries a transport stream (ETSI EN 300 468, 6.4.6.1).
pub static C2_DELIVERY_SYSTEM: Layout = Layout {
    tag: 0x0D,
    name: "C2_delivery_system_descriptor",
    head: rows! {
        "plp_id" Number(8);
        "data_slice_id" Number(8);
        "C2_system_tuning_frequency" Number(32);
        "C2_system_tuning_frequency_type" Number(2);
        "active_OFDM_symbol_duration" Number(3);
        "guard_interval" Number(3);
    },
    items: None,
    counted: None,
};

/// Where a resource on the internet is (ETSI EN 300 468, 6.4.16).
pub static URI_LINKAGE: Layout = Layout {
    tag: 0x13,
    name: "URI_linkage_descriptor",
    head: rows! {
        "uri_linkage_type" Number(8);
        "uri" CountedText;
    },
    items: None,
    counted: None,
};

/// The fields of the URI_linkage_descriptor by what its first fields say (ETSI EN 300 468, 6.4.16).
pub static URI_LINKAGE_GROUPS: &[FieldGroup] = &[
    FieldGroup {
        when: Some(Condition {
            place: 0,
            values: &[0, 1],
        }),
        rows: rows! {
            "min_polling_interval" Number(16);
        },
    },
    FieldGroup {
        when: None,
        rows: rows! {
            "private_data" Hex;
        },
    },
];

/// What an AC-4 audio component is (ETSI EN 300 468, D.7).
pub static AC4: Layout = Layout {
    tag: 0x15,
    name: "AC4_descriptor",
    head: &[
        Field {
            name: "ac4_config_flag",
            kind: Kind::Flag,
            absent: Some(0),
            range: None,
        },
        Field {
            name: "ac4_toc_flag",
            kind: Kind::Flag,
            absent: Some(0),
            range: None,
        },
        Field {
            name: "reserved",
            kind: Kind::Zeros(6),
            absent: None,
            range: None,
        },
    ],
    items: None,
    counted: None,
};

/// The fields of the AC4_descriptor by what its first fields say (ETSI EN 300 468, D.7).
pub static AC4_GROUPS: &[FieldGroup] = &[
    FieldGroup {
        when: Some(Condition {
            place: 0,
            values: &[1],
        }),
        rows: rows! {
            "ac4_dialog_enhancement_enabled" Flag;
            "ac4_channel_mode" Number(2);
            "reserved_2" Zeros(5);
        },
    },
    FieldGroup {
        when: Some(Condition {
            place: 1,
            values: &[1],
        }),
        rows: rows! {
            "ac4_dsi" CountedHex;
        },
    },
    FieldGroup {
        when: None,
        rows: rows! {
            "additional_info" Hex;
        },
    },
];

/// What a component of subtitles in TTML is (ETSI EN 303 560, 5.2.1.1).
pub static TTML_SUBTITLING: Layout = Layout {
    tag: 0x20,
    name: "TTML_subtitling_descriptor",
    head: rows! {
        "language_code" Language;
        "subtitle_purpose" Number(6);
        "TTS_suitability" Number(2);
        "TTML_data" Hex;
    },
    items: None,
    counted: None,
};

/// The numbers under which a receiver lists services (EACEM TR-030).
pub static LOGICAL_CHANNEL: Layout = Layout {
    tag: 0x83,
    name: "logical_channel_descriptor",
    head: rows! {},
    items: Some(ItemLayout {
        name: "service",
        rows: rows! {
            "service_id" Number(16);
            "visible_service" Flag;
            "" Ones(5);
            "logical_channel_number" Number(10);
        },
    }),
    counted: None,
};

/// Lists of numbers under which a receiver lists services (NorDig Unified, 12.2.9.3).
pub static LOGICAL_CHANNEL_V2: Layout = Layout {
    tag: 0x87,
    name: "logical_channel_descriptor_v2",
    head: rows! {},
    items: None,
    counted: None,
};

/// The items of the logical_channel_descriptor_v2 (NorDig Unified, 12.2.9.3).
pub static LOGICAL_CHANNEL_V2_FORM: ItemForm = ItemForm {
    name: "list",
    head: rows! {
        "channel_list_id" Number(8);
        "channel_list_name" CountedText;
        "country_code" Language;
    },
    groups: &[],
    inner: Some(ItemLayout {
        name: "service",
        rows: rows! {
            "service_id" Number(16);
            "visible_service" Flag;
            "" Ones(5);
            "logical_channel_number" Number(10);
        },
    }),
};

/// The numbers of services that replace others in high definition (EACEM TR-030).
pub static HD_SIMULCAST_LOGICAL_CHANNEL: Layout = Layout {
    tag: 0x88,
    name: "HD_simulcast_logical_channel_descriptor",
    head: rows! {},
    items: Some(ItemLayout {
        name: "service",
        rows: rows! {
            "service_id" Number(16);
            "visible_service" Flag;
            "" Ones(5);
            "logical_channel_number" Number(10);
        },
    }),
    counted: None,
};
