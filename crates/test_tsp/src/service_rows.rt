//! Rows on whole services, and on PIDs that tables name.
use crate::inputs::Input;
use crate::row::Row;
use test_tools::ORDINARY;

/// A service kept alone, and one taken out, of the generated stream.
pub(crate) fn rows() -> &'static [Row] {
    &SERVICE_ROWS
}

static SERVICE_ROWS: [Row; 13] = [
    Row {
        name: "zap leaves nothing of the other service",
        words: "-I testgen 1 1000 -P zap 1 -P count --pid 258-259,4097,8191 -O drop",
        input: Input::Pids(&[]),
        plan: ORDINARY,
    },
    Row {
        name: "zap keeps one service",
        words: "-I testgen 1 1000 -P zap 1 -P count -O drop",
        input: Input::Pids(&[]),
        plan: ORDINARY,
    },
    Row {
        name: "the tables that zap writes",
        words: "-I testgen 1 10 -P zap 2 -O file out",
        input: Input::Pids(&[]),
        plan: ORDINARY,
    },
    Row {
        name: "svremove leaves what both services use",
        words: "-I testgen 1 1000 -P svremove 1 -P count -O drop",
        input: Input::Pids(&[]),
        plan: ORDINARY,
    },
    Row {
        name: "svremove with null packets in place",
        words: "-I testgen 1 100 -P svremove 2 --stuffing -P count -O drop",
        input: Input::Pids(&[]),
        plan: ORDINARY,
    },
    Row {
        name: "zap keeps services, one of them given twice and one that is not there",
        words: "-I testgen 1 1000 -P zap 2 9 1 2 -P count -O drop",
        input: Input::Pids(&[]),
        plan: ORDINARY,
    },
    Row {
        name: "zap keeps the PIDs of NIT, TDT and TOT",
        words: "-I testgen 1 1000 -P remap --no-psi --unchecked 258=16 259=20 -P zap 1 --keep time,nit -P count --pid 16-20,258-259 -O drop",
        input: Input::Pids(&[]),
        plan: ORDINARY,
    },
    Row {
        name: "what is no EIT section of the service gives way to null packets",
        words: "-I testgen 1 1000 -P remap --no-psi --unchecked 17=18 -P zap 1 --keep eit -P count --pid 16-20,8191 -O drop",
        input: Input::Pids(&[]),
        plan: ORDINARY,
    },
    Row {
        name: "svremove of both services leaves nothing of them",
        words: "-I testgen 1 1000 -P svremove 1 2 -P count -O drop",
        input: Input::Pids(&[]),
        plan: ORDINARY,
    },
    Row {
        name: "the tables that svrename writes",
        words: "-I testgen 1 10 -P svrename 1 --id 4242 --name First -O file out",
        input: Input::Pids(&[]),
        plan: ORDINARY,
    },
    Row {
        name: "svrename without --id leaves all tables but the SDT",
        words: "-I testgen 1 10 -P svrename 1 --name First -O file out",
        input: Input::Pids(&[]),
        plan: ORDINARY,
    },
    Row {
        name: "svrename refuses the number of another service",
        words: "-I testgen 1 10 -P svrename 1 --id 2 -O drop",
        input: Input::Pids(&[]),
        plan: ORDINARY,
    },
    Row {
        name: "svrename takes the service's own number",
        words: "-I testgen 1 1000 -P svrename 1 --id 1 -P count -O drop",
        input: Input::Pids(&[]),
        plan: ORDINARY,
    },
];

/// Words of these plugins that are no command line.
pub(crate) fn of_words() -> &'static [Row] {
    &SERVICE_WORD_ROWS
}

static SERVICE_WORD_ROWS: [Row; 7] = [
    Row {
        name: "zap of no service",
        words: "-I null 2 -P zap -O drop",
        input: Input::Pids(&[]),
        plan: ORDINARY,
    },
    Row {
        name: "service 0 to keep",
        words: "-I null 2 -P zap 0 -O drop",
        input: Input::Pids(&[]),
        plan: ORDINARY,
    },
    Row {
        name: "zap is to keep what it does not know",
        words: "-I null 2 -P zap 1 --keep nit,sdt -O drop",
        input: Input::Pids(&[]),
        plan: ORDINARY,
    },
    Row {
        name: "sixty-three services to take out",
        words: "-I null 2 -P svremove 1 2 3 4 5 6 7 8 9 10 11 12 13 14 15 16 17 18 19 20 21 22 23 24 25 26 27 28 29 30 31 32 33 34 35 36 37 38 39 40 41 42 43 44 45 46 47 48 49 50 51 52 53 54 55 56 57 58 59 60 61 62 63 -O drop",
        input: Input::Pids(&[]),
        plan: ORDINARY,
    },
    Row {
        name: "svrename that changes nothing",
        words: "-I null 2 -P svrename 1 -O drop",
        input: Input::Pids(&[]),
        plan: ORDINARY,
    },
    Row {
        name: "svrename of no service with a number that is none",
        words: "-I null 2 -P svrename --id 0 -O drop",
        input: Input::Pids(&[]),
        plan: ORDINARY,
    },
    Row {
        name: "a new number that is none",
        words: "-I null 2 -P svrename 1 --id 0 --name First -O drop",
        input: Input::Pids(&[]),
        plan: ORDINARY,
    },
];
