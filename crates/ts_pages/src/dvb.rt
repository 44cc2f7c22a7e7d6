//! Pages of the descriptors of networks, services, events and components (ETSI EN 300 468, 6.2), in the order of
//! their tags.

use ts_fields::{Field, ItemLayout, Kind, Layout};

/// The name of a network (ETSI EN 300 468, 6.2.27).
pub static NETWORK_NAME: Layout = Layout {
    tag: 0x40,
    name: "network_name_descriptor",
    head: rows! {
        "network_name" Text;
    },
    items: None,
    counted: None,
};

/// The services of a transport stream with their types (ETSI EN 300 468, 6.2.35).
pub static SERVICE_LIST: Layout = Layout {
    tag: 0x41,
    name: "service_list_descriptor",
    head: rows! {},
    items: Some(ItemLayout {
        name: "service",
        rows: rows! {
            "service_id" Number(16);
            "service_type" Number(8);
        },
    }),
    counted: None,
};

/// The name of a bouquet (ETSI EN 300 468, 6.2.4).
pub static BOUQUET_NAME: Layout = Layout {
    tag: 0x47,
    name: "bouquet_name_descriptor",
    head: rows! {
        "bouquet_name" Text;
    },
    items: None,
    counted: None,
};

/// The type, the provider and the name of a service (ETSI EN 300 468, 6.2.33).
pub static SERVICE: Layout = Layout {
    tag: 0x48,
    name: "service_descriptor",
    head: rows! {
        "service_type" Number(8);
        "service_provider_name" CountedText;
        "service_name" CountedText;
    },
    items: None,
    counted: None,
};

/// The name of an event and a short text about it (ETSI EN 300 468, 6.2.37).
pub static SHORT_EVENT: Layout = Layout {
    tag: 0x4D,
    name: "short_event_descriptor",
    head: rows! {
        "language_code" Language;
        "event_name" CountedText;
        "text" CountedText;
    },
    items: None,
    counted: None,
};

/// The kind, the tag, the language and a text of a component (ETSI EN 300 468, 6.2.8).
pub static COMPONENT: Layout = Layout {
    tag: 0x50,
    name: "component_descriptor",
    head: rows! {
        "stream_content_ext" Number(4);
        "stream_content" Number(4);
        "component_type" Number(8);
        "component_tag" Number(8);
        "language_code" Language;
        "text" Text;
    },
    items: None,
    counted: None,
};

/// The tag by which other descriptors refer to a component (ETSI EN 300 468, 6.2.39).
pub static STREAM_IDENTIFIER: Layout = Layout {
    tag: 0x52,
    name: "stream_identifier_descriptor",
    head: rows! {
        "component_tag" Number(8);
    },
    items: None,
    counted: None,
};

/// The conditional access systems of a bouquet, a service or an event (ETSI EN 300 468, 6.2.5).
pub static CA_IDENTIFIER: Layout = Layout {
    tag: 0x53,
    name: "CA_identifier_descriptor",
    head: rows! {},
    items: Some(ItemLayout {
        name: "CA_system_id",
        rows: rows! {
            "value" Number(16);
        },
    }),
    counted: None,
};

/// The genres of an event (ETSI EN 300 468, 6.2.9).
pub static CONTENT: Layout = Layout {
    tag: 0x54,
    name: "content_descriptor",
    head: rows! {},
    items: Some(ItemLayout {
        name: "classification",
        rows: rows! {
            "content_nibble_level_1" Number(4);
            "content_nibble_level_2" Number(4);
            "user_byte" Number(8);
        },
    }),
    counted: None,
};

/// The minimum ages for an event, one for each country (ETSI EN 300 468, 6.2.28).
pub static PARENTAL_RATING: Layout = Layout {
    tag: 0x55,
    name: "parental_rating_descriptor",
    head: rows! {},
    items: Some(ItemLayout {
        name: "country",
        rows: rows! {
            "country_code" Language;
            "rating" Number(8);
        },
    }),
    counted: None,
};

/// The Teletext pages of a component, each with its language (ETSI EN 300 468, 6.2.43).
pub static TELETEXT: Layout = Layout {
    tag: 0x56,
    name: "teletext_descriptor",
    head: rows! {},
    items: Some(ItemLayout {
        name: "teletext",
        rows: rows! {
            "language_code" Language;
            "teletext_type" Number(5);
            "teletext_magazine_number" Number(3);
            "teletext_page_number" Number(8);
        },
    }),
    counted: None,
};

/// The subtitles of a component, each with its language (ETSI EN 300 468, 6.2.41).
pub static SUBTITLING: Layout = Layout {
    tag: 0x59,
    name: "subtitling_descriptor",
    head: rows! {},
    items: Some(ItemLayout {
        name: "subtitling",
        rows: rows! {
            "language_code" Language;
            "subtitling_type" Number(8);
            "composition_page_id" Number(16);
            "ancillary_page_id" Number(16);
        },
    }),
    counted: None,
};

/// The organisation that defines the private descriptors that follow (ETSI EN 300 468, 6.2.31).
pub static PRIVATE_DATA_SPECIFIER: Layout = Layout {
    tag: 0x5F,
    name: "private_data_specifier_descriptor",
    head: rows! {
        "private_data_specifier" Number(32);
    },
    items: None,
    counted: None,
};
