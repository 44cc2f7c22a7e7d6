//! What follows from the stream theorem. Laws; they run nothing.
ghost use Rattle.std.specs.Prelude.{◌≡◌, ◌⊎◌, ℕ, List, Some};
ghost use Rattle.chain_model.specs.PureRun.{pure_run};
ghost use Rattle.chain_args.specs.PlanOf.{plan_of};
ghost use Rattle.chain_args.specs.declared.plan_type.Plan.{Plan};
ghost use Rattle.ts_outside.specs.Desk.{DeskView};
ghost use Rattle.ts_outside.specs.Faultless.{NothingFails};
ghost use Rattle.tsp_top.specs.PlannedChain.{chain_of};
ghost use Rattle.tsp_top.specs.PlannedTables.{AreTables};
ghost use Rattle.tsp_top.specs.TspCall.{CallsTsp};
ghost use Rattle.tsp_top.specs.Headline.{TellsInput, TellsTables, IsPureOrWants, IsPureOrEnds, IsDoneOrWants, EndsWell, SameButSizes};
ghost use Rattle.tsp_top.specs.MemoryFirst.{ArePreallocated};
ghost use Rattle.tsp_top.specs.WantsMemory.{WantsMemoryFirst};
ghost use Rattle.tsp_top.specs.declared.status.Status.{Status};
ghost use Rattle.tsp_top.specs.declared.status.Status.TheVariants.{NoMemory};

/// Whatever the words that have a plan, the files and the sizes, a call that meets no fault outside and does not run out of
/// memory writes exactly the packets, prints exactly the reports, and returns exactly the status, that applying the plugins
/// one after another to the whole list of packets gives; each file of tables has sections, and its plugin those.
///
/// Over a desk whose files are not known, as the real one, it does so for some bytes of its input and some tables, unless a
/// file of tables has none; null packets are known in any case.
pub fn headline()
    ensures told { (words : List (List ℕ)) (plan : Plan) (tables : List (List (List ℕ)))
        (files : List (List ℕ × List ℕ)) (old new : DeskView) (status : Status)
        → plan_of words ≡ Some plan → TellsInput plan.input old files
        → TellsTables plan.plugins old files → AreTables old plan.plugins tables
        → CallsTsp words old new status → NothingFails old new
        → IsPureOrWants plan tables files old new status }
    ensures any_desk { (words : List (List ℕ)) (plan : Plan) (old new : DeskView) (status : Status)
        → plan_of words ≡ Some plan → CallsTsp words old new status → NothingFails old new
        → IsPureOrEnds plan old new status }
{}

/// Where the run without faults ends by the input's plain end, by joint termination, by `until` or by a stop, a call that
/// meets no fault outside returns `NoMemory` or what the general options make of a run that is done: `Done`, but `InputEnded`
/// where the input came to its plain end and `--endless` wants that it does not, and else `FaultFound` where a plugin has a fault
/// before the cut and `--fail-on-faults` wants that none has.
pub fn completeness()
    ensures { (words : List (List ℕ)) (plan : Plan) (tables : List (List (List ℕ)))
        (files : List (List ℕ × List ℕ)) (old new : DeskView) (status : Status)
        → plan_of words ≡ Some plan → TellsInput plan.input old files
        → TellsTables plan.plugins old files → AreTables old plan.plugins tables
        → CallsTsp words old new status → NothingFails old new
        → EndsWell (pure_run (chain_of plan tables files)).cause → IsDoneOrWants plan tables files status }
{}

/// The run without faults is the same for plans that differ in the three sizes and in their threads alone.
pub fn sizes_change_nothing()
    ensures { (one other : Plan) (tables : List (List (List ℕ))) (files : List (List ℕ × List ℕ))
        → SameButSizes one other
        → pure_run (chain_of other tables files) ≡ pure_run (chain_of one tables files) }
{}

/// Where all plugins take their room before the run, running out of memory comes before it, or after all that was written.
pub fn memory_first()
    ensures { (words : List (List ℕ)) (plan : Plan) (old new : DeskView) (status : Status)
        → plan_of words ≡ Some plan → ArePreallocated plan.plugins
        → CallsTsp words old new status → status ≡ NoMemory → WantsMemoryFirst plan old new }
{}
