//! What holds of the program's definitions alone. The contracts state it.

ghost use Rattle.std.specs.Prelude.{◌≡◌, ◌<◌, ◌≤◌, ◌⊎◌, ◌++◌, ◌∷◌, [], ℕ, List, Option, Some, Result, Ok, Err, IfOk, codes, length};
ghost use Rattle.clap.specs.Kinds.{IsAmong};
ghost use Rattle.clap.specs.Words.{fault_of};
ghost use Rattle.clap.specs.declared.error.kind.ErrorKind.TheVariants.{DisplayHelp};
ghost use Rattle.exchange_text.specs.Faults.{exchange_fault_text};
ghost use Rattle.exchange_text.specs.declared.fault.ExchangeFault.{ExchangeFault as AnyFileFault};
ghost use Rattle.octet_core.specs.Failures.{most_failures};
ghost use Rattle.octet_core.specs.Octets.{AreOctets};
ghost use Rattle.program.specs.Calls.{calls};
ghost use Rattle.program.specs.Answers.{plain_asked, AreAlike, IsAnswer, IsAnswerAsked, IsPlain, IsSameAnswer};
ghost use Rattle.program.specs.Conversations.{Event};
ghost use Rattle.program.specs.ExchangeTexts.{file_faulted};
ghost use Rattle.program.specs.Files.{file_of, ReadsWhole};
ghost use Rattle.program_octets.specs.Sayings.{text_of};
ghost use Rattle.program.specs.Pieces.{most_pieces, ReadsAll};
ghost use Rattle.program.specs.LineAnswers.{AnswersLines, heard_by, IsHearing, IsUpToDate, told_by};
ghost use Rattle.program_words.specs.Words.{AreSized, AskForOctets, HaveOctets, IsOnce, NeedsOctets};
ghost use Rattle.command_line.specs.Form.{scard};
ghost use Rattle.program_words.specs.declared.fault.Fault.{Fault as AnyFault};
ghost use Rattle.program_words.specs.declared.fault.Fault.TheVariants.{Memory, TooLarge};
ghost use Rattle.program_words.specs.declared.request.Asked.{Asked as AnyAsked};
ghost use Rattle.program.specs.declared.line_task.LineTask.{LineTask as AnyLineTask};
ghost use Rattle.program_octets.specs.declared.said.Said.{Said as AnySaid};
ghost use Rattle.program_octets.specs.declared.status.Status.{Status as AnyStatus};

/// Each request has exactly one text and one status for each outcome of reading standard input. Texts with notes may
/// differ in the words on a refusal, and are the same without notes. Input that is taken as it was read must be octets.
pub fn one_answer()
    ensures some { (asked : AnyAsked) (file : Result (List ℕ) AnyFault) → AreSized asked
        → HaveOctets asked → (IsOnce NeedsOctets asked → IfOk file AreOctets) → (said : AnySaid)
        × (ended : AnyStatus) × IsAnswerAsked asked file said ended }
    ensures one { (asked : AnyAsked) (file : Result (List ℕ) AnyFault) (said other : AnySaid)
        (ended different : AnyStatus) → AreSized asked → HaveOctets asked
        → (IsOnce NeedsOctets asked → IfOk file AreOctets)
        → IsAnswerAsked asked file said ended → IsAnswerAsked asked file other different
        → AreAlike asked said other × (ended ≡ different) }
{}

/// Without its notes, a text is the answer to the same request without notes, and the status is the same. In lines,
/// each line is cut at its first note. In objects, the member for notes is left out.
pub fn notes_cut()
    ensures { (asked : AnyAsked) (file : Result (List ℕ) AnyFault) (said : AnySaid)
        (ended : AnyStatus) → IsAnswerAsked asked file said ended
        → (plain : AnySaid) × IsAnswerAsked (plain_asked asked) file plain ended
        × IsPlain asked said plain }
{}

/// Every list of words has exactly one text and one status, unless `clap` answers a call for help: the text of help is
/// open. If other words follow the word `help`, both help and `fault: words` are right. If notes are asked for, the
/// text without its notes is unique.
pub fn one_text()
    ensures some { (words : List (List ℕ)) (file : Result (List ℕ) AnyFault)
        → (AskForOctets words → IfOk file AreOctets) → (said : AnySaid) × (ended : AnyStatus)
        × IsAnswer words file said ended }
    ensures one { (words : List (List ℕ)) (file : Result (List ℕ) AnyFault) (said other : AnySaid)
        (ended different : AnyStatus) → (AskForOctets words → IfOk file AreOctets)
        → IsAnswer words file said ended → IsAnswer words file other different
        → IsAmong DisplayHelp (fault_of scard words)
        ⊎ (IsSameAnswer words said other × (ended ≡ different)) }
{}

/// If the octets of a reader are known and no call of it fails, reading a file gives these octets. It gives `TooLarge`
/// if there are too many, and may give `Memory`. Reading a trace to judge gives all octets too, however many. It may
/// give `TooLarge` only for 2<sup>50</sup> octets or more.
pub fn one_file()
    ensures file { (octets : List ℕ) (left : Option (List ℕ)) (before after : ℕ)
        (file : Result (List ℕ) AnyFault) → ReadsWhole (calls (Some octets) left before after) file
        → after ≡ before → before < most_failures → (file ≡ Err Memory) ⊎ (file ≡ file_of octets) }
    ensures trace { (octets : List ℕ) (left : Option (List ℕ)) (before after : ℕ)
        (text : Result (List ℕ) AnyFault) → ReadsAll (calls (Some octets) left before after) text
        → after ≡ before → before < most_failures → (text ≡ Err Memory) ⊎ ((text ≡ Ok octets)
        ⊎ ((text ≡ Err TooLarge) × (most_pieces ≤ length octets))) }
{}

/// Whenever a conversation about lines reads more, the texts written before are exactly the answers to all lines that
/// the octets read before end.
pub fn answered_first()
    ensures { (line_task : AnyLineTask) (events before after : List Event) (event : Event)
        (ended : AnyStatus) → AnswersLines line_task [] [] events ended
        → events ≡ before ++ (event ∷ after) → IsHearing event
        → IsUpToDate line_task (heard_by before) (told_by before) }
{}

/// The answer for a fault of a file has as its text the line with the fault, as the file's reader writes it.
pub fn file_fault_lines()
    ensures { (fault : AnyFileFault) → text_of (file_faulted fault)
        ≡ codes "fault: " ++ (exchange_fault_text fault ++ codes "\n") }
{}
