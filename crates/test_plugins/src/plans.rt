//! Tests of the plans of command lines.
use crate::compared::{holds, same, same_bytes};
use chain_args::{Form, InputConf, OutputConf, Plan, WordsFault, WordsRule, plan};
use plug_pass::{FilterConf, PatternConf, SliceConf};
use plugin_options::NumberSet;
use plugin_settings::PluginConf;
use std::alloc::Global;
use std::process::Abort;
use std::test::Fail;

/// Appends the words of a line, which blanks separate.
fn push_words(alloc: Global, words: &mut Vec<String>, line: &str) -> Result<(), Fail> {
    for word in line.split(' ') {
        words.push(String::from_str(alloc, word)?)?;
    }
    Ok(())
}

/// The words of a line; an empty line has none.
fn words_of(alloc: Global, line: &str) -> Result<Vec<String>, Fail> {
    let mut words = Vec::new(alloc);
    if !line.is_empty() {
        push_words(alloc, &mut words, line)?;
    }
    Ok(words)
}

/// The plan of a line that has one, in a box, since it is large.
fn plan_of_line(alloc: Global, line: &str) -> Result<Box<Plan>, Fail> {
    let words = words_of(alloc, line)?;
    match plan(alloc, &words) {
        Ok(plan) => Ok(Box::new(alloc, plan)?),
        Err(_) => Err("a plan".into()),
    }
}

/// Why words have no plan.
fn fault_of(alloc: Global, words: &[String]) -> Option<WordsFault> {
    plan(alloc, words).err()
}

/// Why a line has no plan.
fn fault_of_line(alloc: Global, line: &str) -> Result<Option<WordsFault>, Fail> {
    let words = words_of(alloc, line)?;
    Ok(fault_of(alloc, &words))
}

/// Lines, the first word of the segment that breaks a rule, and the rule.
static FIRST_BROKEN: [(&str, usize, WordsRule); 20] = [
    ("-I null 2 -P filter -O drop", 3, WordsRule::Missing),
    ("-I null 2 -I null 3", 3, WordsRule::Twice),
    ("-I null 2 -P", 3, WordsRule::NoName),
    ("-I null 2 -P filter --pid 8192", 3, WordsRule::Value),
    ("-I null 2 -P filter --pid 1 --pid 2", 3, WordsRule::Shape),
    (
        "-I null 1 -P filter --pid 1 --set-label 32 -O drop",
        3,
        WordsRule::Value,
    ),
    ("-I file A -P nosuch -O drop", 3, WordsRule::UnknownPlugin),
    ("--buffer-packets 0", 0, WordsRule::Value),
    ("-I null 1 -I", 3, WordsRule::Twice),
    ("-P filter --pcr -I -O drop", 3, WordsRule::NoName),
    ("-P -x", 0, WordsRule::UnknownPlugin),
    ("-P ", 0, WordsRule::UnknownPlugin),
    ("-P nosuch -I null", 0, WordsRule::UnknownPlugin),
    ("-I null -P nosuch", 0, WordsRule::Missing),
    ("-I testgen 1", 0, WordsRule::Missing),
    ("-I testgen 1 2 3", 0, WordsRule::Shape),
    ("filter", 0, WordsRule::Shape),
    ("--help", 0, WordsRule::Shape),
    ("-O drop x", 0, WordsRule::Shape),
    ("-I null 2 3", 0, WordsRule::Shape),
];

/// These lines, in a function: the content of a `static` is written into each function that names it.
fn first_broken() -> &'static [(&'static str, usize, WordsRule)] {
    &FIRST_BROKEN
}

/// Checks why a line has no plan.
fn breaks(
    rt: &(impl Abort + AllocGlobal),
    line: &str,
    wanted: Option<WordsFault>,
) -> Result<(), Fail> {
    let fault = fault_of_line(rt.alloc(), line)?;
    same(rt, (line, fault), (line, wanted));
    Ok(())
}

/// Checks which rule the only segment of each line breaks, if it breaks one.
fn break_rules(
    rt: &(impl Abort + AllocGlobal),
    rows: &[(&str, Option<WordsRule>)],
) -> Result<(), Fail> {
    for (line, rule) in rows {
        let wanted = rule.map(|rule| WordsFault::At { word: 0, rule });
        breaks(rt, line, wanted)?;
    }
    Ok(())
}

static FORMS: [(&str, Option<WordsRule>); 29] = [
    ("-P filter --pid -x", Some(WordsRule::Shape)),
    ("-P filter --pid --", Some(WordsRule::Shape)),
    ("-P filter --pc", Some(WordsRule::Shape)),
    ("-P filter --pcr=", Some(WordsRule::Shape)),
    ("-P filter -- --pcr", Some(WordsRule::Shape)),
    ("-P filter --pid=-1", Some(WordsRule::Value)),
    ("-P filter --pid -", Some(WordsRule::Value)),
    ("-P filter --pid=", Some(WordsRule::Value)),
    ("-P filter --pid ", Some(WordsRule::Value)),
    ("-P filter --pid +1", Some(WordsRule::Value)),
    ("-P filter --pid 0X10", Some(WordsRule::Value)),
    ("-P filter --pid 0x", Some(WordsRule::Value)),
    ("-P filter --pid 5-3", Some(WordsRule::Value)),
    ("-P filter --pid 1,,2", Some(WordsRule::Value)),
    ("-P filter --pid 1-2-3", Some(WordsRule::Value)),
    ("-I null 1099511627777", Some(WordsRule::Value)),
    ("-I null 99999999999999999999", Some(WordsRule::Value)),
    ("--add-input-stuffing 1=2", Some(WordsRule::Value)),
    ("--add-input-stuffing 1/0", Some(WordsRule::Value)),
    ("--", None),
    ("", None),
    ("-P filter --pcr --", None),
    ("-P filter --pid 0x1fFf,0-3,0007", None),
    ("-I null 0x10000000000", None),
    ("-I testgen 1 1099511627777", Some(WordsRule::Value)),
    ("-I testgen 18446744073709551616 1", Some(WordsRule::Value)),
    ("-I testgen 18446744073709551615 0x10000000000", None),
    ("-I file ", None),
    ("-I file -", None),
];

fn forms_of_values() -> &'static [(&'static str, Option<WordsRule>)] {
    &FORMS
}

/// Checks the plan of the line below, except its plugin.
fn is_whole(rt: &impl Abort, plan: &Plan) {
    let general = &plan.general;
    let found = (general.add_input_stuffing, general.buffer_packets);
    same(rt, found, ((1, 2), Some(7)));
    holds(rt, general.ignore_joint_termination);
    holds(rt, matches!(plan.input, InputConf::Null(4)));
    holds(rt, matches!(plan.output, OutputConf::Drop));
}

/// Checks the only plugin of that plan.
fn has_one_filter(rt: &impl Abort, plan: &Plan) -> Result<(), Fail> {
    let [item] = plan.plugins.as_slice() else {
        return Err(Fail::from("one plugin"));
    };
    let PluginConf::Filter(filter) = &item.conf else {
        return Err(Fail::from("a filter"));
    };
    let Some(only) = &item.only else {
        return Err(Fail::from("labels"));
    };
    is_filter(rt, filter, only);
    Ok(())
}

/// Checks ranges of numbers.
fn same_ranges(rt: &impl Abort, found: &[(u64, u64)], wanted: &[(u64, u64)]) {
    holds(rt, found == wanted);
}

/// Checks the settings of that filter, and its labels.
fn is_filter(rt: &impl Abort, filter: &FilterConf, only: &NumberSet) {
    same_ranges(rt, only.as_slice(), &[(0, 3)]);
    same_ranges(rt, filter.pid.as_slice(), &[(8191, 8191), (5, 7)]);
    let flags = [filter.negate, filter.pcr, filter.stuffing];
    same(rt, flags, [true, false, false]);
}

static WHOLE: &str =
    "--add-input-stuffing 1/2 --buffer-packets=7 --ignore-joint-termination -I null 4 -P filter --pid 0x1FFF,5-7 --negate --only-label 0-3 -O drop";

/// Checks the plan of no words.
fn is_plain(rt: &impl Abort, plan: &Plan) {
    let general = &plan.general;
    let found = (
        general.buffer_packets,
        general.max_flushed_packets,
        general.max_input_packets,
        general.add_input_stuffing,
    );
    same(rt, found, (None, None, None, (0, 1)));
    holds(rt, is_standard_input(&plan.input));
    holds(rt, is_standard_output(&plan.output));
    holds(rt, plan.plugins.as_slice().is_empty());
}

/// Whether plain packets are read from the standard input.
fn is_standard_input(input: &InputConf) -> bool {
    matches!(input, InputConf::File { name, form: Form::Ts, resync: false } if name.as_str().is_empty())
}

/// Whether plain packets are written to the standard output.
fn is_standard_output(output: &OutputConf) -> bool {
    matches!(output, OutputConf::File(name) if name.as_str().is_empty())
}

/// The words of `count` plugins.
fn many_plugins(alloc: Global, count: usize) -> Result<Vec<String>, Fail> {
    let mut words = Vec::new(alloc);
    for _ in 0..count {
        push_words(alloc, &mut words, "-P filter --pcr")?;
    }
    Ok(words)
}

/// Why `count` plugins have no plan.
fn fault_of_plugins(alloc: Global, count: usize) -> Result<Option<WordsFault>, Fail> {
    let words = many_plugins(alloc, count)?;
    Ok(fault_of(alloc, &words))
}

static OF_PLUGINS: [(&str, Option<WordsRule>); 45] = [
    ("-P skip", Some(WordsRule::Missing)),
    ("-P skip 1 2", Some(WordsRule::Shape)),
    ("-P skip 1099511627777", Some(WordsRule::Value)),
    ("-P skip 0x10000000000", None),
    ("-P slice", Some(WordsRule::Missing)),
    ("-P slice --drop 1 --pass x", Some(WordsRule::Value)),
    ("-P slice --drop 1 --pass 0x1", Some(WordsRule::Conflict)),
    ("-P slice --drop 1 --pass 3 --stop 4", None),
    ("-P slice --milliseconds", Some(WordsRule::Missing)),
    (
        "-P slice --drop 1 --milliseconds --pcr-pid 8192",
        Some(WordsRule::Value),
    ),
    ("-P slice --drop 1 --pcr-pid 256", Some(WordsRule::Conflict)),
    ("-P slice --drop 1 --milliseconds --pcr-pid 256", None),
    ("-P pattern", Some(WordsRule::Missing)),
    ("-P pattern --pid x", Some(WordsRule::Missing)),
    ("-P pattern ", Some(WordsRule::Value)),
    ("-P pattern ABC", Some(WordsRule::Value)),
    ("-P pattern 0xAB", Some(WordsRule::Value)),
    ("-P pattern abCD --offset-pusi 184", Some(WordsRule::Value)),
    ("-P pattern abCD --offset-non-pusi 182", None),
    ("-P until", Some(WordsRule::Missing)),
    ("-P until --packets 0", Some(WordsRule::Value)),
    ("-P until --packets 1 --bytes 1", Some(WordsRule::Conflict)),
    ("-P until --packets 1 --joint-termination", None),
    (
        "-P until --packets 1 --joint-termination --exclude-last",
        Some(WordsRule::Conflict),
    ),
    (
        "-P until --packets 1 --joint-termination=1",
        Some(WordsRule::Shape),
    ),
    ("-P until --unit-start-count 2 --exclude-last", None),
    ("-P until --pcr-pid 256", Some(WordsRule::Missing)),
    ("-P until --seconds 4294967297", Some(WordsRule::Value)),
    (
        "-P until --seconds 1 --packets 1",
        Some(WordsRule::Conflict),
    ),
    (
        "-P until --packets 1 --pcr-pid 256",
        Some(WordsRule::Conflict),
    ),
    ("-P until --seconds 4294967296 --pcr-pid 8191", None),
    ("-P until --seconds 0 --joint-termination", None),
    ("-P count x", Some(WordsRule::Shape)),
    ("-P count --all --total --negate", None),
    ("-P continuity --fix --pid 0-8192", Some(WordsRule::Value)),
    ("-P continuity --fix", None),
    ("-P remap --no-psi", Some(WordsRule::Missing)),
    ("-P remap 1=2", None),
    ("-P remap 1/2 --no-psi", Some(WordsRule::Value)),
    ("-P remap 1=8192 --no-psi", Some(WordsRule::Value)),
    ("-P remap 1=2 1=3 --no-psi", Some(WordsRule::Conflict)),
    ("-P remap 8191=1 --no-psi", Some(WordsRule::Conflict)),
    ("-P remap 1=3 2=3 --no-psi", Some(WordsRule::Conflict)),
    ("-P remap 1=3 2=3 --no-psi --unchecked", None),
    ("-P remap 1=2 --no-psi 3=8191", None),
];

fn words_of_plugins() -> &'static [(&'static str, Option<WordsRule>)] {
    &OF_PLUGINS
}

static OF_LABELS: [(&str, Option<WordsRule>); 8] = [
    ("-P filter --set-label 3", Some(WordsRule::Missing)),
    ("-P filter --label 32", Some(WordsRule::Value)),
    ("-P filter --label 0-31 --set-label 3", None),
    (
        "-P filter --pid 1 --set-label 3 --stuffing",
        Some(WordsRule::Conflict),
    ),
    (
        "-P filter --pid 1 --set-label 3 --stuffing --only-label 32",
        Some(WordsRule::Value),
    ),
    ("-P skip --only-label 32", Some(WordsRule::Missing)),
    ("-P skip 1 --only-label 31", None),
    ("-P count --only-label", Some(WordsRule::Shape)),
];

fn words_of_labels() -> &'static [(&'static str, Option<WordsRule>)] {
    &OF_LABELS
}

#[test]
fn lines_break_their_rules(rt: HostRuntime) -> Result<(), Fail> {
    for (line, word, rule) in first_broken() {
        let wanted = WordsFault::At {
            word: *word,
            rule: *rule,
        };
        breaks(&rt, line, Some(wanted))?;
    }
    break_rules(&rt, forms_of_values())?;
    break_rules(&rt, words_of_plugins())?;
    break_rules(&rt, words_of_labels())
}

/// Checks the settings of a pattern.
fn is_pattern(rt: &impl Abort, pattern: &PatternConf) {
    same_bytes(rt, pattern.operand.as_slice(), &[0xAB, 0xCD]);
    let offsets = (pattern.offset_pusi, pattern.offset_non_pusi);
    same(rt, offsets, (None, Some(182)));
}

/// Checks the settings of a slice.
fn is_slice(rt: &impl Abort, slice: &SliceConf) {
    let found = (slice.drop, slice.null, slice.stop);
    same(rt, found, (Some(1), None, Some(4)));
}

/// Checks the plan of the line below.
fn has_settings(rt: &impl Abort, plan: &Plan) -> Result<(), Fail> {
    let [first, second, third] = plan.plugins.as_slice() else {
        return Err(Fail::from("three plugins"));
    };
    let PluginConf::Pattern(pattern) = &first.conf else {
        return Err(Fail::from("a pattern"));
    };
    let PluginConf::Slice(slice) = &second.conf else {
        return Err(Fail::from("a slice"));
    };
    let PluginConf::Remap(remap) = &third.conf else {
        return Err(Fail::from("a remap"));
    };
    is_pattern(rt, pattern);
    is_slice(rt, slice);
    same_ranges(rt, remap.operand.as_slice(), &[(1, 2), (3, 4)]);
    Ok(())
}

static SETTINGS: &str =
    "-P pattern abCD --offset-non-pusi 182 -P slice --drop 1 --stop 4 -P remap 1=2 --no-psi 3=4";

/// A line that has a plan.
#[derive(Clone, Copy)]
enum Planned {
    Whole,
    Plain,
    Settings,
}

/// The words of that line.
fn line_of(planned: Planned) -> &'static str {
    match planned {
        Planned::Whole => WHOLE,
        Planned::Plain => "",
        Planned::Settings => SETTINGS,
    }
}

/// Checks the plan of that line.
fn is_planned(rt: &impl Abort, planned: Planned, plan: &Plan) -> Result<(), Fail> {
    match planned {
        Planned::Whole => {
            is_whole(rt, plan);
            has_one_filter(rt, plan)
        }
        Planned::Plain => {
            is_plain(rt, plan);
            Ok(())
        }
        Planned::Settings => has_settings(rt, plan),
    }
}

/// Makes that plan, and checks it.
fn has_plan(rt: &(impl Abort + AllocGlobal), planned: Planned) -> Result<(), Fail> {
    let plan = plan_of_line(rt.alloc(), line_of(planned))?;
    is_planned(rt, planned, &*plan)
}

/// A whole plan, what holds without words, and the settings of plugins.
#[test]
fn lines_have_their_plans(rt: HostRuntime) -> Result<(), Fail> {
    has_plan(&rt, Planned::Whole)?;
    has_plan(&rt, Planned::Plain)?;
    has_plan(&rt, Planned::Settings)
}

/// The words of a `remap` with `count` pairs of one target.
fn pairs_of_one_target(alloc: Global, count: u32) -> Result<Vec<String>, Fail> {
    let mut words = words_of(alloc, "-P remap --no-psi --unchecked")?;
    for source in 0..count {
        words.push(format!(in alloc; "{source}=8191")?)?;
    }
    Ok(words)
}

/// Why `count` such pairs have no plan.
fn fault_of_pairs(alloc: Global, count: u32) -> Result<Option<WordsFault>, Fail> {
    let words = pairs_of_one_target(alloc, count)?;
    Ok(fault_of(alloc, &words))
}

/// There is no 63rd plugin, and there are at most 1000 pairs.
#[test]
fn there_are_not_too_many(rt: HostRuntime) -> Result<(), Fail> {
    let plugins = WordsFault::At {
        word: 186,
        rule: WordsRule::TooMany,
    };
    same(&rt, fault_of_plugins(rt.alloc(), 63)?, Some(plugins));
    same(&rt, fault_of_plugins(rt.alloc(), 62)?, None);
    let pairs = WordsFault::At {
        word: 0,
        rule: WordsRule::Conflict,
    };
    same(&rt, fault_of_pairs(rt.alloc(), 1001)?, Some(pairs));
    same(&rt, fault_of_pairs(rt.alloc(), 1000)?, None);
    Ok(())
}
