//! Laws of flows, each a fact and no code.

ghost use Rattle.std.specs.Prelude.{◌≡◌, ◌==◌, ◌<◌, ◌∷◌, ◌++◌, ℕ, List, Option, [], true, false};
ghost use Rattle.std.specs.List.{AllByRecursion};
ghost use Rattle.ts_packet.specs.Header.{pid_of};
ghost use Rattle.ts_demux.specs.SectionsOfPid.{sections_of_pid};
ghost use Rattle.ts_demux.specs.TablesOn.{packets_on};
ghost use Rattle.section_flow.specs.Flow.{Edit, GivesSections, IsClear, all_given, completed_by, edited_of, is_empty, replaced, waiting_after};
ghost use Rattle.section_flow.specs.FlowStands.{StandsFor};
ghost use Rattle.section_flow.specs.declared.flow.Flow.{Flow as GivenFlow};

use ts_demux::other_packets_change_nothing;

/// A packet of another PID is untouched. A law: it runs nothing.
pub fn other_packets_are_untouched()
    ensures { (pid : ℕ) (edit : Edit) (met : List (List ℕ)) (packet : List ℕ) → (pid_of packet == pid) ≡ false
        → replaced pid edit met packet ≡ packet }
{}

/// What leaves in the places of a whole list of packets is what leaves in the place of each, after the packets before
/// it; packets that come later change nothing. A law: it runs nothing.
pub fn each_place_by_itself()
    ensures { (pid : ℕ) (edit : Edit) (met : List (List ℕ)) (packet : List ℕ)
        → all_given pid edit (met ++ packet ∷ []) ≡ all_given pid edit met ++ replaced pid edit met packet ∷ [] }
{}

/// Where nothing waits, what left in the places of packets has exactly the edited sections, demultiplexed: what became of
/// the sections that each packet completed, each once, in their order. What becomes of a section has to be a section. And
/// no packet of the PID may be scrambled: one that passes between two packets of a section has a counter, and who leaves
/// it out sees a jump there. A law: it runs nothing.
pub fn edited_sections_are_read()
    ensures { (pid : ℕ) (edit : Edit) (met : List (List ℕ)) → pid < 8191 → GivesSections edit
        → AllByRecursion (λ packet. IsClear pid packet) met → is_empty (waiting_after pid edit met) ≡ true
        → sections_of_pid pid (all_given pid edit met) ≡ edited_of pid edit met }
{}

/// A flow stands for a packet of another PID too, where it is left as it is. A law: it runs nothing.
pub fn packets_of_other_pids_change_nothing()
    ensures { (flow : GivenFlow) (pid : ℕ) (edit : Edit) (met : List (List ℕ)) (packet : List ℕ) → StandsFor flow pid edit met
        → (pid_of packet == pid) ≡ false → StandsFor flow pid edit (met ++ packet ∷ []) }
{
    // A law, which runs nothing.
    other_packets_change_nothing();
}

/// Where the edit is the same whatever was met, packets of other PIDs do not matter: a packet completes the sections that it
/// completes among the packets of the PID alone, and what leaves in its place is what leaves there. A law: it runs nothing.
pub fn an_edit_that_stays_goes_by_one_pid()
    ensures completed { (pid : ℕ) (met : List (List ℕ)) (packet : List ℕ) → (pid_of packet == pid) ≡ true
        → completed_by pid met packet ≡ completed_by pid (packets_on pid met) packet }
    ensures replaced { (pid : ℕ) (now : List ℕ → Option (List ℕ)) (met : List (List ℕ)) (packet : List ℕ) → (pid_of packet == pid) ≡ true
        → replaced pid (λ _. now) met packet ≡ replaced pid (λ _. now) (packets_on pid met) packet }
{}
