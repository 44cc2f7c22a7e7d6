//! Tests of the core over lists of visits: joint termination, ends and faults.

ghost use Rattle.std.specs.Prelude.{◌≡◌, ◌⊎◌, ◌≤◌, ◌<◌, ◌+◌, ℕ, [], ◌∷◌, All, IsTrue, IfOk};
ghost use Rattle.chain_core.specs.Stages.{stages_of};

use crate::compared::{holds, same};
use crate::driver::{Driver, Step};
use chain_core::{Cause, Closed, CorePlan, InputEnd, News, Reason, StageEnd, StageSet, StageWord};
use std::alloc::{AllocError, Global};
use std::process::Abort;
use std::test::Fail;

// A macro, since a `static` calls no function.
macro_rules! step {
    ($stage:literal, $done:literal, $agreed:expr, $ended:expr) => {
        Step {
            stage: $stage,
            done: $done,
            word: StageWord {
                agreed: $agreed,
                ended: $ended,
            },
        }
    };
}

macro_rules! gives {
    ($stage:literal, $done:literal) => {
        step!($stage, $done, None, None)
    };
}

macro_rules! agrees {
    ($stage:literal, $done:literal, $agreed:literal) => {
        step!($stage, $done, Some($agreed), None)
    };
}

macro_rules! ends {
    ($stage:literal, $done:literal, $end:expr) => {
        step!($stage, $done, None, Some($end))
    };
}

macro_rules! news {
    ($taken:literal, $limit:expr, $written:literal) => {
        News {
            taken: $taken,
            limit: $limit,
            written: $written,
            before_over: false,
            after_over: false,
        }
    };
}

/// The plugins of two that use joint termination.
#[derive(Clone, Copy)]
enum Users {
    None,
    First,
    Both,
}

/// Visits of a core of two plugins, and where and why it is closed after them.
#[derive(Clone, Copy)]
struct CoreRow {
    users: Users,
    visits: &'static [Step],
    cut: u64,
    cause: Cause,
}

fn set_of(users: Users) -> StageSet
    ensures { All (λ k. (1 ≤ k) × (k ≤ 2)) (stages_of result) }
{
    match users {
        Users::None => no_users(),
        Users::First => first_plugin(),
        Users::Both => both_plugins(),
    }
}

/// Runs a core over the visits of a row, and compares where and why it was closed.
fn closes(rt: &(impl Abort + AllocGlobal), row: &CoreRow) -> Result<(), AllocError> {
    let plan = CorePlan {
        plugins: 2,
        buffer: 8,
        most: 8,
        users: set_of(row.users),
    };
    let mut driver = Driver::new(rt.alloc(), &plan)?;
    for step in row.visits {
        let _ = told(rt, &mut driver, *step);
    }
    assert!(rt; driver.all_ended());
    let wanted = Closed {
        cut: row.cut,
        cause: row.cause,
    };
    same(rt, driver.close(), wanted);
    Ok(())
}

fn no_users() -> StageSet
    ensures { stages_of result ≡ [] }
{
    StageSet::none()
}

fn first_plugin() -> StageSet
    ensures { stages_of result ≡ 1 ∷ [] }
{
    StageSet::none().with(1)
}

fn both_plugins() -> StageSet
    ensures { stages_of result ≡ 1 ∷ 2 ∷ [] }
{
    StageSet::none().with(1).with(2)
}

const FOLLOWED: StageEnd = StageEnd::Followed;

const INPUT_END: InputEnd = InputEnd::End { left: 0 };

/// Agreed at 5 and at 3: the greater one is the cut.
static JOINT_TERMINATION_AGREEING: [Step; 11] = [
    gives!(0, 0),
    gives!(0, 8),
    gives!(1, 0),
    agrees!(1, 6, 5),
    gives!(2, 0),
    agrees!(2, 6, 3),
    gives!(3, 0),
    ends!(3, 5, FOLLOWED),
    ends!(2, 0, FOLLOWED),
    ends!(1, 0, FOLLOWED),
    ends!(0, 0, FOLLOWED),
];

fn agreeing() -> CoreRow {
    CoreRow {
        users: Users::Both,
        visits: &JOINT_TERMINATION_AGREEING,
        cut: 5,
        cause: Cause::Joint,
    }
}

/// The same visits with joint termination ignored: the chain goes on to the input's end.
static JOINT_TERMINATION_IGNORED: [Step; 11] = [
    gives!(0, 0),
    ends!(0, 8, StageEnd::Input(INPUT_END)),
    gives!(1, 0),
    agrees!(1, 8, 5),
    gives!(2, 0),
    agrees!(2, 8, 3),
    gives!(3, 0),
    gives!(3, 8),
    ends!(1, 0, FOLLOWED),
    ends!(2, 0, FOLLOWED),
    ends!(3, 0, FOLLOWED),
];

fn ignored() -> CoreRow {
    CoreRow {
        users: Users::None,
        visits: &JOINT_TERMINATION_IGNORED,
        cut: 8,
        cause: Cause::Input(INPUT_END),
    }
}

/// Plugin 2 never agrees.
static JOINT_TERMINATION_NEVER: [Step; 11] = [
    gives!(0, 0),
    ends!(0, 8, StageEnd::Input(INPUT_END)),
    gives!(1, 0),
    agrees!(1, 8, 5),
    gives!(2, 0),
    gives!(2, 8),
    gives!(3, 0),
    gives!(3, 8),
    ends!(1, 0, FOLLOWED),
    ends!(2, 0, FOLLOWED),
    ends!(3, 0, FOLLOWED),
];

fn never() -> CoreRow {
    CoreRow {
        users: Users::Both,
        visits: &JOINT_TERMINATION_NEVER,
        cut: 8,
        cause: Cause::Input(INPUT_END),
    }
}

/// A last packet at the joint cut: joint termination has priority.
static ENDS_AT_ONE_PLACE_LAST: [Step; 11] = [
    gives!(0, 0),
    gives!(0, 8),
    gives!(1, 0),
    ends!(1, 5, StageEnd::Last),
    gives!(2, 0),
    agrees!(2, 5, 5),
    gives!(3, 0),
    gives!(3, 5),
    ends!(2, 0, FOLLOWED),
    ends!(3, 0, FOLLOWED),
    ends!(0, 0, FOLLOWED),
];

fn last() -> CoreRow {
    CoreRow {
        users: Users::None,
        visits: &ENDS_AT_ONE_PLACE_LAST,
        cut: 5,
        cause: Cause::Until(1),
    }
}

/// Two last packets: the first plugin's counts. Two other ends: the last stage's counts.
static ENDS_AT_ONE_PLACE_TWO_LASTS: [Step; 10] = [
    gives!(0, 0),
    gives!(0, 8),
    gives!(1, 0),
    ends!(1, 5, StageEnd::Last),
    gives!(2, 0),
    ends!(2, 5, StageEnd::Last),
    gives!(3, 0),
    gives!(3, 5),
    ends!(3, 0, FOLLOWED),
    ends!(0, 0, FOLLOWED),
];

fn two_lasts() -> CoreRow {
    CoreRow {
        users: Users::None,
        visits: &ENDS_AT_ONE_PLACE_TWO_LASTS,
        cut: 5,
        cause: Cause::Until(1),
    }
}

static ENDS_AT_ONE_PLACE_TWO_ENDS: [Step; 10] = [
    gives!(0, 0),
    gives!(0, 8),
    gives!(1, 0),
    ends!(1, 6, StageEnd::Stop),
    gives!(2, 0),
    ends!(2, 6, StageEnd::NoMemory),
    gives!(3, 0),
    gives!(3, 6),
    ends!(3, 0, FOLLOWED),
    ends!(0, 0, FOLLOWED),
];

fn two_ends() -> CoreRow {
    CoreRow {
        users: Users::None,
        visits: &ENDS_AT_ONE_PLACE_TWO_ENDS,
        cut: 6,
        cause: Cause::NoMemory(2),
    }
}

/// Plugin 1 is far after the cut, at which plugin 2 refuses a packet.
static ENDS_AT_ONE_PLACE_AHEAD: [Step; 11] = [
    gives!(0, 0),
    gives!(0, 8),
    gives!(1, 0),
    gives!(1, 8),
    gives!(2, 0),
    ends!(2, 1, StageEnd::Refuse(Reason::Pid(33))),
    gives!(3, 0),
    gives!(3, 1),
    ends!(3, 0, FOLLOWED),
    ends!(1, 0, FOLLOWED),
    ends!(0, 0, FOLLOWED),
];

fn ahead() -> CoreRow {
    CoreRow {
        users: Users::Both,
        visits: &ENDS_AT_ONE_PLACE_AHEAD,
        cut: 1,
        cause: Cause::Refuse(2, Reason::Pid(33)),
    }
}

/// Three packets followed by four null packets of the stop stuffing, and an agreement at two.
static ENDS_AT_ONE_PLACE_NULLS: [Step; 10] = [
    gives!(0, 0),
    ends!(0, 7, StageEnd::Input(INPUT_END)),
    gives!(1, 0),
    agrees!(1, 7, 2),
    gives!(2, 0),
    gives!(2, 7),
    gives!(3, 0),
    ends!(3, 2, FOLLOWED),
    ends!(1, 0, FOLLOWED),
    ends!(2, 0, FOLLOWED),
];

fn nulls() -> CoreRow {
    CoreRow {
        users: Users::First,
        visits: &ENDS_AT_ONE_PLACE_NULLS,
        cut: 2,
        cause: Cause::Joint,
    }
}

static FAULTS_BEFORE_THE_CUT_READ_FAULT: [Step; 11] = [
    gives!(0, 0),
    ends!(0, 3, StageEnd::Input(InputEnd::ReadFault)),
    gives!(1, 0),
    gives!(1, 3),
    gives!(2, 0),
    agrees!(2, 3, 3),
    gives!(3, 0),
    gives!(3, 3),
    ends!(1, 0, FOLLOWED),
    ends!(2, 0, FOLLOWED),
    ends!(3, 0, FOLLOWED),
];

fn read_fault() -> CoreRow {
    CoreRow {
        users: Users::Both,
        visits: &FAULTS_BEFORE_THE_CUT_READ_FAULT,
        cut: 3,
        cause: Cause::Input(InputEnd::ReadFault),
    }
}

static FAULTS_BEFORE_THE_CUT_FIRST_PLUGIN_WANTS: [Step; 11] = [
    gives!(0, 0),
    gives!(0, 8),
    gives!(1, 0),
    ends!(1, 3, StageEnd::NoMemory),
    gives!(2, 0),
    agrees!(2, 3, 3),
    gives!(3, 0),
    gives!(3, 3),
    ends!(2, 0, FOLLOWED),
    ends!(3, 0, FOLLOWED),
    ends!(0, 0, FOLLOWED),
];

fn first_plugin_wants() -> CoreRow {
    CoreRow {
        users: Users::Both,
        visits: &FAULTS_BEFORE_THE_CUT_FIRST_PLUGIN_WANTS,
        cut: 3,
        cause: Cause::NoMemory(1),
    }
}

static FAULTS_BEFORE_THE_CUT_SECOND_PLUGIN_WANTS: [Step; 11] = [
    gives!(0, 0),
    gives!(0, 8),
    gives!(1, 0),
    agrees!(1, 8, 5),
    gives!(2, 0),
    ends!(2, 3, StageEnd::NoMemory),
    gives!(3, 0),
    gives!(3, 3),
    ends!(3, 0, FOLLOWED),
    ends!(1, 0, FOLLOWED),
    ends!(0, 0, FOLLOWED),
];

fn second_plugin_wants() -> CoreRow {
    CoreRow {
        users: Users::Both,
        visits: &FAULTS_BEFORE_THE_CUT_SECOND_PLUGIN_WANTS,
        cut: 3,
        cause: Cause::NoMemory(2),
    }
}

static FAULTS_BEFORE_THE_CUT_WRITE_FAULT: [Step; 11] = [
    gives!(0, 0),
    gives!(0, 8),
    gives!(1, 0),
    agrees!(1, 8, 5),
    gives!(2, 0),
    agrees!(2, 8, 3),
    gives!(3, 0),
    ends!(3, 3, StageEnd::WriteFault),
    ends!(2, 0, FOLLOWED),
    ends!(1, 0, FOLLOWED),
    ends!(0, 0, FOLLOWED),
];

fn write_fault() -> CoreRow {
    CoreRow {
        users: Users::Both,
        visits: &FAULTS_BEFORE_THE_CUT_WRITE_FAULT,
        cut: 3,
        cause: Cause::WriteFault,
    }
}

/// A read fault at the joint cut: joint termination is the cause.
static FAULTS_AT_THE_CUT_READ_FAULT: [Step; 11] = [
    gives!(0, 0),
    ends!(0, 5, StageEnd::Input(InputEnd::ReadFault)),
    gives!(1, 0),
    agrees!(1, 5, 5),
    gives!(2, 0),
    agrees!(2, 5, 3),
    gives!(3, 0),
    gives!(3, 5),
    ends!(1, 0, FOLLOWED),
    ends!(2, 0, FOLLOWED),
    ends!(3, 0, FOLLOWED),
];

fn read_fault_at_the_cut() -> CoreRow {
    CoreRow {
        users: Users::Both,
        visits: &FAULTS_AT_THE_CUT_READ_FAULT,
        cut: 5,
        cause: Cause::Joint,
    }
}

static FAULTS_AT_THE_CUT_PLUGINS_WANT: [Step; 12] = [
    gives!(0, 0),
    gives!(0, 8),
    gives!(1, 0),
    agrees!(1, 5, 5),
    ends!(1, 0, StageEnd::NoMemory),
    gives!(2, 0),
    agrees!(2, 5, 3),
    ends!(2, 0, StageEnd::NoMemory),
    gives!(3, 0),
    gives!(3, 5),
    ends!(3, 0, FOLLOWED),
    ends!(0, 0, FOLLOWED),
];

fn plugins_want() -> CoreRow {
    CoreRow {
        users: Users::Both,
        visits: &FAULTS_AT_THE_CUT_PLUGINS_WANT,
        cut: 5,
        cause: Cause::Joint,
    }
}

static FAULTS_AT_THE_CUT_WRITE_FAULT: [Step; 11] = [
    gives!(0, 0),
    gives!(0, 8),
    gives!(1, 0),
    agrees!(1, 8, 5),
    gives!(2, 0),
    agrees!(2, 8, 3),
    gives!(3, 0),
    ends!(3, 5, StageEnd::WriteFault),
    ends!(2, 0, FOLLOWED),
    ends!(1, 0, FOLLOWED),
    ends!(0, 0, FOLLOWED),
];

fn write_fault_at_the_cut() -> CoreRow {
    CoreRow {
        users: Users::Both,
        visits: &FAULTS_AT_THE_CUT_WRITE_FAULT,
        cut: 5,
        cause: Cause::Joint,
    }
}

/// A last packet at the joint cut is the cause.
static FAULTS_AT_THE_CUT_LAST_PACKET: [Step; 10] = [
    gives!(0, 0),
    gives!(0, 8),
    gives!(1, 0),
    ends!(1, 5, StageEnd::Last),
    gives!(2, 0),
    ends!(2, 5, StageEnd::NoMemory),
    gives!(3, 0),
    gives!(3, 5),
    ends!(3, 0, FOLLOWED),
    ends!(0, 0, FOLLOWED),
];

fn last_packet() -> CoreRow {
    CoreRow {
        users: Users::None,
        visits: &FAULTS_AT_THE_CUT_LAST_PACKET,
        cut: 5,
        cause: Cause::Until(1),
    }
}

/// Each row in a function of its own: the content of a `static` is written into each function that names it.
fn core_rows() -> [CoreRow; 16] {
    [
        agreeing(),
        ignored(),
        never(),
        last(),
        two_lasts(),
        two_ends(),
        ahead(),
        nulls(),
        read_fault(),
        first_plugin_wants(),
        second_plugin_wants(),
        write_fault(),
        read_fault_at_the_cut(),
        plugins_want(),
        write_fault_at_the_cut(),
        last_packet(),
    ]
}

/// Joint termination, ends at one place, and faults before the cut and at it.
#[test]
fn visits_end_as_their_rows_say(rt: HostRuntime) -> Result<(), Fail> {
    let rows = core_rows();
    for row in &rows {
        closes(&rt, row)?;
    }
    Ok(())
}

/// Visits with their news. Before anything is written eight cells may be made, six of them with a visit.
static NEWS: [(Step, News); 9] = [
    (gives!(0, 0), news!(6, None, 0)),
    (gives!(0, 6), news!(8, None, 0)),
    (gives!(1, 0), news!(6, None, 0)),
    (agrees!(1, 6, 5), news!(6, None, 0)),
    (gives!(2, 0), news!(6, None, 0)),
    (agrees!(2, 4, 3), news!(6, Some(5), 0)),
    (gives!(3, 0), news!(4, Some(5), 0)),
    (gives!(3, 4), news!(4, Some(5), 4)),
    (gives!(0, 2), news!(12, Some(5), 4)),
];

fn news_rows() -> &'static [(Step, News)] {
    &NEWS
}

/// The output ends; the plugin before it receives that, and then that the plugin before has ended.
fn tells_ends(rt: &impl Abort, driver: &mut Driver) {
    let _ = told(rt, driver, ends!(3, 0, StageEnd::WriteFault));
    let over = told(rt, driver, gives!(2, 2));
    same(rt, (over.before_over, over.after_over), (false, true));
    let _ = told(rt, driver, ends!(1, 0, FOLLOWED));
    let over = told(rt, driver, gives!(2, 0));
    holds(rt, over.before_over);
}

#[test]
fn news_of_visits(rt: HostRuntime) -> Result<(), Fail> {
    let plan = CorePlan {
        plugins: 2,
        buffer: 8,
        most: 6,
        users: both_plugins(),
    };
    let mut driver = Driver::new(rt.alloc(), &plan)?;
    for (step, news) in news_rows() {
        same(&rt, told(&rt, &mut driver, *step), *news);
    }
    tells_ends(&rt, &mut driver);
    Ok(())
}

/// The news of an allowed visit.
fn told(rt: &impl Abort, driver: &mut Driver, step: Step) -> News {
    assert!(rt; driver.allows(step), "a visit of stage {}", step.stage);
    driver.visit(step)
}
