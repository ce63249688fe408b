//! What holds for the judge's decision, and for the ends of `t1_core` that it judges, as contracts.

ghost use Rattle.std.specs.Prelude.{◌≡◌, ◌≤◌, ◌↔◌, ℕ, List, Option, Some, length, true};
ghost use Rattle.block_core.specs.declared.pcb.Pcb.{Pcb};
ghost use Rattle.judge_core.specs.declared.end.End.{End};
ghost use Rattle.judge_core.specs.declared.courses.Heard.{Heard};
ghost use Rattle.judge_core.specs.declared.courses.Verdict.TheVariants.{Permitted};
ghost use Rattle.judge_core.specs.Courses.{Permits, judges, judgment};
ghost use Rattle.t1_core.specs.Link.{tables};
ghost use Rattle.judge_core.specs.Tapped.{NoTraceAccuses};
ghost use Rattle.judge_core.specs.Watched.{EndsArePermitted, NobodyIsAccused};
ghost use Rattle.judge_core.specs.Followed.{Follows, PermitsSurely, Sending, followed, permitted};
ghost use Rattle.block_core.specs.declared.side.Side.{Side};
ghost use Rattle.judge_core.specs.declared.exercise.Exercise.TheVariants.{Breaks};
ghost use Rattle.judge_core.specs.declared.monitor.Arrival.{Arrival};
ghost use Rattle.judge_core.specs.declared.monitor.Monitor.{Monitor};
ghost use Rattle.judge_core.specs.declared.monitor.Watched.{Watched};
ghost use Rattle.judge_core.specs.declared.rule.Rule.{Rule};
ghost use Rattle.judge_core.specs.declared.state.State.{State};
ghost use Rattle.judge_core.specs.Doubts.{is_open};
ghost use Rattle.judge_core.specs.Missed.{Forgives, MaySendAny, WaitsElsewhere};
ghost use Rattle.judge_core.specs.Monitored.{sender, IsSent, Seen};
ghost use Rattle.judge_core.specs.Stakes.{at_stake, can_break, exercise_of, stakes_of, CanBeSent, IsBreakable};
ghost use Rattle.judge_core.specs.declared.end.Owed.{Owed};

/// The decision is exact: a block is no deviation if and only if some course permits it.
///
/// All such courses lead to one end, and the judge goes on from it. The verdict is [`Permitted`] if and only if the
/// block is permitted without unseen damage.
///
/// [`Permitted`]: crate::Verdict::Permitted
pub fn decides()
    ensures passed { (e e1 : End) (heard : Heard) (last : List ℕ) (pcb : Pcb) (inf : List ℕ)
        → Permits e heard last pcb inf e1 ↔ (permitted (judges e heard last pcb inf) ≡ Some e1) }
    ensures surely { (e e1 : End) (heard : Heard) (last : List ℕ) (pcb : Pcb) (inf : List ℕ)
        → PermitsSurely e heard last pcb inf e1
        ↔ (judges e heard last pcb inf ≡ judgment Permitted e1) }
{}

/// A deviation is found at the first block after which no course is left, and at no other block.
pub fn follows()
    ensures { (blocks : List Sending) (e e1 : End) (last : List ℕ)
        → Follows blocks e last e1 ↔ (followed blocks e last ≡ Some e1) }
{}

/// Whatever is lost or damaged between a terminal and a card of `t1_core`, the standard permits each
/// block that they send.
pub fn ends_are_permitted()
    ensures { EndsArePermitted tables }
{}

/// A judge sees the blocks of both ends, but not which of them came whole. It accuses neither end, whatever is lost or
/// damaged on the way.
pub fn nobody_is_accused()
    ensures { NobodyIsAccused tables }
{}

/// The monitor of a trace accuses neither end of `t1_core`, whatever is lost or damaged on the way, and whichever of the
/// lost blocks the tap misses. The trace has the blocks of one connection, and the ends of the terminal's waiting times.
pub fn no_trace_accuses()
    ensures { NoTraceAccuses tables }
{}

/// The rule that a block breaks was at stake. A permitted block keeps each rule that was at stake.
pub fn broken_was_at_stake()
    ensures { (m : Monitor) (from : Side) (octets : List ℕ) (arrival : Arrival) (seen : Seen)
        (broken : Rule) (state : Option State) → IsSent octets arrival seen → exercise_of m from seen ≡ Breaks broken state
        → at_stake (stakes_of (sender m from) seen) broken ≡ true }
{}

/// A tap that misses a lost block accuses nobody for that. With the block and without it, the judge knows the same of the
/// other end. The end that sent the block may then send any block.
///
/// This holds unless the terminal waits for an answer of another logical connection. It does so only directly after its
/// own block of that connection, and so never if there is one connection.
pub fn missed_blocks_are_forgiven()
    ensures forgiven { (m : Monitor) (from : Side) (seen : Seen) → Forgives m from seen }
    ensures elsewhere { WaitsElsewhere }
    ensures any { (w : Watched) → is_open w.doubt ≡ true → MaySendAny w }
{}

/// The stakes name no rule without reason. If an end that owes this can break a rule, as they say, then some block
/// breaks it.
pub fn stakes_are_real()
    ensures { (e : End) (owed : Owed) (last : List ℕ) (broken : Rule) → length last ≤ 254
        → CanBeSent e.asked → can_break e owed broken ≡ true → IsBreakable e owed last broken }
{}
