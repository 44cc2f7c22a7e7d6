//! Command lines that break a rule, of each kind of fault.
use plugin_options::WordsRule;

/// A command line, the number of the first word of the segment that breaks a rule, and the rule.
pub(crate) struct WordsRow {
    pub(crate) words: &'static str,
    pub(crate) at: usize,
    pub(crate) rule: WordsRule,
}

static ROWS: [WordsRow; 84] = [
    WordsRow {
        words: "-P filter --pid 9000 -O drop",
        at: 0,
        rule: WordsRule::Value,
    },
    WordsRow {
        words: "-I file in.ts -P filter --pcr --label=3,32",
        at: 3,
        rule: WordsRule::Value,
    },
    WordsRow {
        words: "-I file in.ts -P pat --add-service 1=256",
        at: 3,
        rule: WordsRule::Value,
    },
    WordsRow {
        words: "--add-input-stuffing 1=9 -O drop",
        at: 0,
        rule: WordsRule::Value,
    },
    WordsRow {
        words: "-P remap 1=2 3/4",
        at: 0,
        rule: WordsRule::Value,
    },
    WordsRow {
        words: "-P pattern 0g",
        at: 0,
        rule: WordsRule::Value,
    },
    WordsRow {
        words: "-I testgen 1 x",
        at: 0,
        rule: WordsRule::Value,
    },
    WordsRow {
        words: "-I file in.m2ts --format m2t",
        at: 0,
        rule: WordsRule::Value,
    },
    WordsRow {
        words: "--threads 2",
        at: 0,
        rule: WordsRule::Value,
    },
    WordsRow {
        words: "-P filter --pid ä\u{1}9",
        at: 0,
        rule: WordsRule::Value,
    },
    WordsRow {
        words: "-P zap 1 --bitrate 5",
        at: 0,
        rule: WordsRule::Shape,
    },
    WordsRow {
        words: "-P count --every 0",
        at: 0,
        rule: WordsRule::Value,
    },
    WordsRow {
        words: "-P tables --every 5",
        at: 0,
        rule: WordsRule::Shape,
    },
    WordsRow {
        words: "-P timestamps --csv --every 5",
        at: 0,
        rule: WordsRule::Conflict,
    },
    WordsRow {
        words: "-P filter --pid",
        at: 0,
        rule: WordsRule::Shape,
    },
    WordsRow {
        words: "-P filter --pid --pcr",
        at: 0,
        rule: WordsRule::Shape,
    },
    WordsRow {
        words: "-P filter --pcr --pcr",
        at: 0,
        rule: WordsRule::Shape,
    },
    WordsRow {
        words: "-P filter --pcr=1",
        at: 0,
        rule: WordsRule::Shape,
    },
    WordsRow {
        words: "-I null 5 6",
        at: 0,
        rule: WordsRule::Shape,
    },
    WordsRow {
        words: "in.ts -O drop",
        at: 0,
        rule: WordsRule::Shape,
    },
    WordsRow {
        words: "-I in.ts -O drop",
        at: 0,
        rule: WordsRule::UnknownPlugin,
    },
    WordsRow {
        words: "-I null 5 -O zap",
        at: 3,
        rule: WordsRule::UnknownPlugin,
    },
    WordsRow {
        words: "-I null 5 -O",
        at: 3,
        rule: WordsRule::NoName,
    },
    WordsRow {
        words: "-O drop -O file out.ts",
        at: 2,
        rule: WordsRule::Twice,
    },
    WordsRow {
        words: "-P skip 1 -P skip 2",
        at: 3,
        rule: WordsRule::TooMany,
    },
    WordsRow {
        words: "-P pmt --new-version 3",
        at: 0,
        rule: WordsRule::Missing,
    },
    WordsRow {
        words: "-P until --exclude-last",
        at: 0,
        rule: WordsRule::Missing,
    },
    WordsRow {
        words: "-P sdt --name News",
        at: 0,
        rule: WordsRule::Conflict,
    },
    WordsRow {
        words: "-P sdt --service 1 --name News --new-version 3 --increment-version",
        at: 0,
        rule: WordsRule::Conflict,
    },
    WordsRow {
        words: "-P pat --new-version 3 --increment-version",
        at: 0,
        rule: WordsRule::Conflict,
    },
    WordsRow {
        words: "-P slice --drop 1 --pass 1",
        at: 0,
        rule: WordsRule::Conflict,
    },
    WordsRow {
        words: "-P zapp 769",
        at: 0,
        rule: WordsRule::UnknownPlugin,
    },
    WordsRow {
        words: "-P filter --pids 5",
        at: 0,
        rule: WordsRule::Shape,
    },
    WordsRow {
        words: "-P zap -- 0",
        at: 0,
        rule: WordsRule::Value,
    },
    WordsRow {
        words: "-P skip  --only-label 0-2",
        at: 0,
        rule: WordsRule::Value,
    },
    WordsRow {
        words: "-P filter --set-label 3",
        at: 0,
        rule: WordsRule::Missing,
    },
    WordsRow {
        words: "-P slice --only-label 1",
        at: 0,
        rule: WordsRule::Missing,
    },
    WordsRow {
        words: "-P inject x --pid 17",
        at: 0,
        rule: WordsRule::Missing,
    },
    WordsRow {
        words: "-P inject -- x",
        at: 0,
        rule: WordsRule::Missing,
    },
    WordsRow {
        words: "-I testgen 1",
        at: 0,
        rule: WordsRule::Missing,
    },
    WordsRow {
        words: "-P zap --service 769",
        at: 0,
        rule: WordsRule::Shape,
    },
    WordsRow {
        words: "-P zap 1 --keep nit,sdt",
        at: 0,
        rule: WordsRule::Value,
    },
    WordsRow {
        words: "-P skip 769 770",
        at: 0,
        rule: WordsRule::Shape,
    },
    WordsRow {
        words: "-O file x --format",
        at: 0,
        rule: WordsRule::Shape,
    },
    WordsRow {
        words: "-P remap 1=2 3=2",
        at: 0,
        rule: WordsRule::Conflict,
    },
    WordsRow {
        words: "-P remap --unchecked 1=2 3=2 0x1=3",
        at: 0,
        rule: WordsRule::Conflict,
    },
    WordsRow {
        words: "-P zap 1 2 3 4 5 6 7 8 9 10 11 12 13 14 15 16 17 18 19 20 21 22 23 24 25 26 27 28 29 30 31 32 33 34 35 36 37 38 39 40 41 42 43 44 45 46 47 48 49 50 51 52 53 54 55 56 57 58 59 60 61 62 63",
        at: 0,
        rule: WordsRule::Conflict,
    },
    WordsRow {
        words: "-P remap 8191=2",
        at: 0,
        rule: WordsRule::Conflict,
    },
    WordsRow {
        words: "-I file a -I file b",
        at: 3,
        rule: WordsRule::Twice,
    },
    WordsRow {
        words: "-i file x",
        at: 0,
        rule: WordsRule::Shape,
    },
    WordsRow {
        words: "-I file x -o file y",
        at: 0,
        rule: WordsRule::Shape,
    },
    WordsRow {
        words: "-p count",
        at: 0,
        rule: WordsRule::Shape,
    },
    WordsRow {
        words: "-P remap 1=99999",
        at: 0,
        rule: WordsRule::Value,
    },
    WordsRow {
        words: "--add-start-stuffing=1000001 -O drop",
        at: 0,
        rule: WordsRule::Value,
    },
    WordsRow {
        words: "-P pat --add-service 1/2,3/99999",
        at: 0,
        rule: WordsRule::Value,
    },
    WordsRow {
        words: "--add-input-stuffing=1=9 -O drop",
        at: 0,
        rule: WordsRule::Value,
    },
    WordsRow {
        words: "-P pmt --service 0 --increment-version",
        at: 0,
        rule: WordsRule::Value,
    },
    WordsRow {
        words: "-P pmt --pmt-pid 256 --move-pid 256:257",
        at: 0,
        rule: WordsRule::Value,
    },
    WordsRow {
        words: "-P pmt --pmt-pid 256 --language 257/germ",
        at: 0,
        rule: WordsRule::Value,
    },
    WordsRow {
        words: "-P pmt --pmt-pid 256 --language 257=deu",
        at: 0,
        rule: WordsRule::Value,
    },
    WordsRow {
        words: "-P pmt --pmt-pid 256 --add-descriptor 5202",
        at: 0,
        rule: WordsRule::Value,
    },
    WordsRow {
        words: "-P pmt --pmt-pid 256 --add-pid-descriptor 9000/520107",
        at: 0,
        rule: WordsRule::Value,
    },
    WordsRow {
        words: "-P pmt --pmt-pid 256 --service 1",
        at: 0,
        rule: WordsRule::Conflict,
    },
    WordsRow {
        words: "-P pmt --pmt-pid 256 --drop",
        at: 0,
        rule: WordsRule::Conflict,
    },
    WordsRow {
        words: "-P remap 256:257",
        at: 0,
        rule: WordsRule::Value,
    },
    WordsRow {
        words: "-P remap 256=1,257=2",
        at: 0,
        rule: WordsRule::Value,
    },
    WordsRow {
        words: "-P remap 0x100=1ABC",
        at: 0,
        rule: WordsRule::Value,
    },
    WordsRow {
        words: "-P filter --pid 5,300-200",
        at: 0,
        rule: WordsRule::Value,
    },
    WordsRow {
        words: "-P filter --pid 1,~2",
        at: 0,
        rule: WordsRule::Value,
    },
    WordsRow {
        words: "-P filter --pid 1,x-5",
        at: 0,
        rule: WordsRule::Value,
    },
    WordsRow {
        words: "-P tables --tid SDT",
        at: 0,
        rule: WordsRule::Value,
    },
    WordsRow {
        words: "-P sdt --version 5",
        at: 0,
        rule: WordsRule::Shape,
    },
    WordsRow {
        words: "-P pmt --pid 256",
        at: 0,
        rule: WordsRule::Shape,
    },
    WordsRow {
        words: "-P zap -202",
        at: 0,
        rule: WordsRule::Shape,
    },
    WordsRow {
        words: "-P filter --pid 1 --pid 2",
        at: 0,
        rule: WordsRule::Shape,
    },
    WordsRow {
        words: "-P pat --add-service 1/2 --add-service 3/4",
        at: 0,
        rule: WordsRule::Shape,
    },
    WordsRow {
        words: "-P zap~202",
        at: 0,
        rule: WordsRule::UnknownPlugin,
    },
    WordsRow {
        words: "-I my~file.ts",
        at: 0,
        rule: WordsRule::UnknownPlugin,
    },
    WordsRow {
        words: "-P inject x --replace",
        at: 0,
        rule: WordsRule::Missing,
    },
    WordsRow {
        words: "-P analyse",
        at: 0,
        rule: WordsRule::UnknownPlugin,
    },
    WordsRow {
        words: "-P filter -p 100",
        at: 0,
        rule: WordsRule::Shape,
    },
    WordsRow {
        words: "-I udp 5000",
        at: 0,
        rule: WordsRule::UnknownPlugin,
    },
    WordsRow {
        words: "-I null 5 -O ip 239.1.1.2:5000",
        at: 3,
        rule: WordsRule::UnknownPlugin,
    },
    WordsRow {
        words: "-P filter --pid é\u{9b}1",
        at: 0,
        rule: WordsRule::Value,
    },
];

/// The rows.
pub(crate) fn word_rows() -> &'static [WordsRow] {
    &ROWS
}
