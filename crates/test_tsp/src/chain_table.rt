//! The chains that are run with many sizes.

/// A chain: its name, its general options, and its plugins.
#[derive(Clone, Copy)]
pub(crate) struct Chain {
    pub(crate) name: &'static str,
    pub(crate) general: &'static str,
    pub(crate) plugins: &'static str,
}

/// Together they use each plugin that uses packets alone, all over the same mixed stream.
pub(crate) static CHAINS: [Chain; 8] = [
    Chain {
        name: "filter, skip and count",
        general: "",
        plugins: "-P filter --pid 256,258 -P skip 5 -P count",
    },
    Chain {
        name: "the same in one thread by choice",
        general: "--threads 1",
        plugins: "-P filter --pid 256,258 -P skip 5 -P count",
    },
    Chain {
        name: "slice, pattern and continuity",
        general: "--add-stop-stuffing 3",
        plugins: "-P slice --drop 10 --pass 20 --null 45 -P pattern C0FFEE --pid 257 --offset-pusi 3 -P continuity",
    },
    Chain {
        name: "until counts unit starts after remap",
        general: "",
        plugins: "-P remap --no-psi 256=600 257=601 -P until --unit-start-count 7 -P count --all --pid 601",
    },
    Chain {
        name: "remap refuses a packet after filter",
        general: "",
        plugins: "-P count --total -P filter --unit-start --pid 256 --negate --stuffing -P remap --no-psi 256=512",
    },
    Chain {
        name: "two agree to end among nulls",
        general: "--add-start-stuffing 3 --add-input-stuffing 2/7",
        plugins: "-P until --packets 20 --joint-termination -P skip 6 -P until --bytes 3760 --joint-termination -P count",
    },
    Chain {
        name: "two would agree, but that is ignored",
        general: "--ignore-joint-termination",
        plugins: "-P until --packets 20 --joint-termination -P skip 6 -P until --bytes 3760 --joint-termination -P count",
    },
    Chain {
        name: "all eight",
        general: "",
        plugins: "-P filter --pid 256-258 -P skip 2 -P slice --null 30 --pass 33 -P pattern ABCD --pid 258 -P remap --no-psi 256=700 -P continuity --fix -P count --pid 258 --negate -P until --packets 25 --exclude-last",
    },
];
