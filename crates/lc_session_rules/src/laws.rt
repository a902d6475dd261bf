//! What follows from the contract of a session.
//!
//! Each function proves what its clauses say, and does nothing when it is run.

ghost use Rattle.std.specs.Prelude.{◌≡◌, ◌⊎◌, ◌+◌, ◌<◌, ◌≤◌, ◌^◌, ◌++◌, ℕ, Bool, true, false, List, [], ◌∷◌, length, Option, Some, Contains, IsTrue};
ghost use Rattle.std.specs.Io.KnownBytes.{Appends};
ghost use Rattle.lc_algebra.specs.Matrix.{Matrix};
ghost use Rattle.lc_enumeration.specs.Search.{Answer};
ghost use Rattle.lc_enumeration.specs.Records.{SessionStep};
ghost use Rattle.lc_formats.specs.Certificate.{Reason, accepted, rejected as rejects};
ghost use Rattle.lc_formats.specs.Document.{document_in, IsCheckText};
ghost use Rattle.lc_formats.specs.Proven.{IsVerdict};
ghost use Rattle.lc_formats.specs.Checkpoint.{Checkpoint};
ghost use Rattle.lc_io.specs.declared.watcher.Record.{Record};
ghost use Rattle.lc_io.specs.Outside.{HasRisen, AppendsPart};
ghost use Rattle.lc_io.specs.Vaults.{Slots, in_slot, other, WhereTold};
ghost use Rattle.lc_io.specs.Watchers.{Hearing};
ghost use Rattle.lc_io.specs.Told.{Kept};
ghost use Rattle.lc_grammar.specs.Tree.{Statement};
ghost use Rattle.lc_grammar.specs.Grammar.{Reads};
ghost use Rattle.lc_language.specs.declared.Call.{Call};
ghost use Rattle.lc_language.specs.Value.{Binding};
ghost use Rattle.lc_language.specs.Evaluation.{Runs, IsText};
ghost use Rattle.lc_session_rules.specs.Options.{run, resume, check, summary, Settings, settings, usage as refuses, all_options, options};
ghost use Rattle.lc_session_rules.specs.Needs.{Needs, IsNeeds, MeetsFirst, NoFault};
ghost use Rattle.lc_session_rules.specs.Nears.{NearsHold};
ghost use Rattle.lc_session_rules.specs.Answers.{RunsBy, IsTextBy, Settle, answers_of, HasWords};
ghost use Rattle.lc_session_rules.specs.Slots.{slot_of, turn_after, takes, choice, IsTrueCheckpoint, AreTrueSlots};
ghost use Rattle.lc_session_rules.specs.Endings.{Ending, done, usage, paused, source_fault, sink_fault, vault_fault, no_memory, other_script, rejected};
ghost use Rattle.lc_session_rules.specs.Summary.{summary_text};
ghost use Rattle.lc_session_rules.specs.Session.{Outside, Course, rounds_of, keeps, IsFresh, GoesOnFrom, Fits, begin_with, Keeps, Tears, IsSession};
ghost use Rattle.lc_session_rules.specs.Promises.{IsAmple, IsAnswer, PrintsText, checkpoint_of, Holds, StartsTruly, StoresTruly, StoresAfresh, FailsSo, ends_early};
ghost use Rattle.lc_session_rules.specs.Chain.{Chain, IsGround, HasBegun, TearsSo, GoesOn, ChainsAreTrue};

/// A session goes by the settings that its arguments ask for. It ends with the index of a refused
/// argument exactly if one is refused. If nothing fails or stops it,
/// it answers what was asked, unless memory is refused.
pub fn sessions_answer_what_was_asked()
    ensures settings { (table : List Call) (args : List (List ℕ)) (old new : Outside) (ending : Ending)
        (asked : Settings) (s : IsSession table args old new ending) → options all_options args ≡ settings asked →
        s.asked ≡ asked }
    ensures usage { (table : List Call) (args : List (List ℕ)) (old new : Outside) (ending : Ending) (i : ℕ)
        (s : IsSession table args old new ending) →
        (options all_options args ≡ refuses i → ending ≡ usage i)
        × (ending ≡ usage i → options all_options args ≡ refuses i) }
    ensures complete { (table : List Call) (args : List (List ℕ)) (old new : Outside) (ending : Ending)
        (s : IsSession table args old new ending) → IsAmple table args old new s.asked s.course → IsAnswer ending }
{}

/// What a session says of itself is what it did. One that is paused, or that a fault of the vault or want of memory ends, wrote
/// nothing; it names the last round that it told, or how many. If the checkpoint is of another script or budget, it names those of
/// the checkpoint that was found, where the vault tells its slots. Without keep the vault is as it was. What `check` writes is the line of the bytes that it read,
/// and its status is their verdict; what `summary` writes is the line of its number, and it reads nothing. A session that finishes
/// met no fault.
///
/// The count of faults of the source, the sink or the vault rises only if the session ends with that fault. A session that ends by its
/// arguments, its source or what its slots hold, before its searches began, told no record and left the sink, the vault and the
/// watchers as they were. If the sink fails, it took a front of the text, and not all of it; the text is that of the script, if
/// the session started afresh or from a true checkpoint. Under every other ending but for a finished or rejected session the sink is
/// as it was. Over any slots the words that `resume` prints are nonzero words of the codes, with their weights. What a session of
/// `run` or `resume` that finishes prints for its queries for nearest words is true. If checkpoints are kept, a watcher that is handed
/// back has answered Pause once at most, and then the session is paused.
pub fn sessions_say_what_they_did()
    ensures paused { (table : List Call) (args : List (List ℕ)) (old new : Outside) (query blocks : ℕ)
        (s : IsSession table args old new (paused query blocks)) →
        ((before : List SessionStep) × (last : SessionStep) × (s.course.told ≡ before ++ last ∷ [])
        × (last.note.need ≡ query) × (last.note.blocks ≡ blocks)) × (s.asked.keep ≡ true) × (new.sink ≡ old.sink) }
    ensures vault_fault { (table : List Call) (args : List (List ℕ)) (old new : Outside) (told : ℕ)
        (s : IsSession table args old new (vault_fault told)) →
        (told ≡ length s.course.told) × HasRisen old.vault_faults new.vault_faults × (new.sink ≡ old.sink) }
    ensures no_memory { (table : List Call) (args : List (List ℕ)) (old new : Outside) (told : ℕ)
        (s : IsSession table args old new (no_memory told)) → (told ≡ length s.course.told) × (new.sink ≡ old.sink) }
    ensures other_script { (table : List Call) (args : List (List ℕ)) (old new : Outside) (script : List ℕ) (budget : ℕ)
        (s : IsSession table args old new (other_script script budget)) (slots : Slots) → old.vault ≡ Some slots →
        (p : Checkpoint) × (choice slots ≡ takes p) × (script ≡ p.script) × (budget ≡ p.budget) }
    ensures unkept { (table : List Call) (args : List (List ℕ)) (old new : Outside) (ending : Ending)
        (s : IsSession table args old new ending) → s.asked.keep ≡ false → new.vault ≡ old.vault }
    ensures accepted { (table : List Call) (args : List (List ℕ)) (old new : Outside) (n : ℕ)
        (s : IsSession table args old new (done n)) → s.asked.command ≡ check →
        IsVerdict (document_in s.course.bytes) accepted × IsCheckText s.course.bytes s.course.text
        × Appends old.sink new.sink s.course.text }
    ensures rejected { (table : List Call) (args : List (List ℕ)) (old new : Outside) (reason : Reason)
        (s : IsSession table args old new (rejected reason)) →
        IsVerdict (document_in s.course.bytes) (rejects reason) × IsCheckText s.course.bytes s.course.text
        × Appends old.sink new.sink s.course.text }
    ensures summary { (table : List Call) (args : List (List ℕ)) (old new : Outside) (n : ℕ)
        (s : IsSession table args old new (done n)) → s.asked.command ≡ summary →
        Appends old.sink new.sink (summary_text s.asked.number s.asked.budget s.asked.round)
        × (new.source ≡ old.source) }
    ensures unfailed { (table : List Call) (args : List (List ℕ)) (old new : Outside) (n : ℕ)
        (s : IsSession table args old new (done n)) →
        (new.source_faults ≡ old.source_faults) × (new.sink_faults ≡ old.sink_faults)
        × (new.vault_faults ≡ old.vault_faults) }
    ensures counts { (table : List Call) (args : List (List ℕ)) (old new : Outside) (ending : Ending)
        (s : IsSession table args old new ending) →
        (¬ (ending ≡ source_fault) → new.source_faults ≡ old.source_faults)
        × (¬ (ending ≡ sink_fault) → new.sink_faults ≡ old.sink_faults)
        × (((told : ℕ) → ¬ (ending ≡ vault_fault told)) → new.vault_faults ≡ old.vault_faults) }
    ensures source_fault { (table : List Call) (args : List (List ℕ)) (old new : Outside)
        (s : IsSession table args old new source_fault) → HasRisen old.source_faults new.source_faults }
    ensures early { (table : List Call) (args : List (List ℕ)) (old new : Outside) (ending : Ending)
        (s : IsSession table args old new ending) → IsTrue (ends_early ending) →
        (s.course.told ≡ []) × (new.sink ≡ old.sink) × (new.vault ≡ old.vault) × (new.watchers ≡ old.watchers) }
    ensures sink_fault { (table : List Call) (args : List (List ℕ)) (old new : Outside)
        (s : IsSession table args old new sink_fault) →
        HasRisen old.sink_faults new.sink_faults × AppendsPart old.sink new.sink s.course.text
        × (StartsTruly table s.asked.command s.asked old.vault s.course →
        IsText table s.asked.budget s.course.bytes s.course.text s.course.is_faulty)
        × (s.asked.command ≡ check → IsCheckText s.course.bytes s.course.text)
        × (s.asked.command ≡ summary → s.course.text ≡ summary_text s.asked.number s.asked.budget s.asked.round) }
    ensures written { (table : List Call) (args : List (List ℕ)) (old new : Outside) (ending : Ending)
        (s : IsSession table args old new ending) → ((n : ℕ) → ¬ (ending ≡ done n)) → ¬ (ending ≡ sink_fault) →
        ((r : Reason) → ¬ (ending ≡ rejected r)) → new.sink ≡ old.sink }
    ensures words { (table : List Call) (args : List (List ℕ)) (old new : Outside) (n : ℕ)
        (s : IsSession table args old new (done n)) → s.asked.command ≡ resume →
        (answers : List Answer) × IsTextBy table s.asked.budget s.course.bytes answers s.course.text
        s.course.is_faulty × HasWords s.course.needs answers × Appends old.sink new.sink s.course.text }
    ensures nearest { (table : List Call) (args : List (List ℕ)) (old new : Outside) (n : ℕ)
        (s : IsSession table args old new (done n)) → IsTrue (keeps s.asked.command) →
        NearsHold table s.course.bytes s.asked.budget }
    ensures paused_once { (table : List Call) (args : List (List ℕ)) (old new : Outside) (ending : Ending)
        (s : IsSession table args old new ending) → s.asked.keep ≡ true → (v : Hearing) → Contains new.watchers v →
        (w : Hearing) × Contains old.watchers w
        × ((v.pauses ≡ w.pauses) ⊎ ((v.pauses ≡ w.pauses + 1)
        × ((query blocks : ℕ) × (ending ≡ paused query blocks)))) }
{}

/// What is in the slots after a session that keeps its checkpoints. The slot of the last turn holds the
/// checkpoint of the last record told, and the other slot that of the record before it. After one
/// record alone the other slot is as the session found it, and without a record both are. If a store
/// failed, the checkpoint of the last record told is in the other slot. Turns alternate between the slots
/// below 2^60; those of a session of `run`, or over true slots, are below 2^58
/// (`stored_slots_hold_true_checkpoints`).
pub fn slots_hold_the_last_checkpoints()
    ensures last { (asked : Settings) (course : Course) (old new : Option Slots) (before : List SessionStep)
        (s : SessionStep) → course.told ≡ before ++ s ∷ [] → Keeps asked course old new →
        Holds old new (slot_of (turn_after course.turn before))
        (checkpoint_of asked course (turn_after course.turn before) s) }
    ensures one_before { (asked : Settings) (course : Course) (old new : Option Slots) (before : List SessionStep)
        (r s : SessionStep) → course.told ≡ (before ++ r ∷ []) ++ s ∷ [] → turn_after course.turn before < 2 ^ 60 →
        Keeps asked course old new → Holds old new (slot_of (turn_after course.turn before))
        (checkpoint_of asked course (turn_after course.turn before) r) }
    ensures alone { (asked : Settings) (course : Course) (old new : Option Slots) (s : SessionStep) →
        course.told ≡ s ∷ [] → Keeps asked course old new →
        WhereTold old new (λ before after. in_slot (other (slot_of course.turn)) after
        ≡ in_slot (other (slot_of course.turn)) (begin_with asked.command before)) }
    ensures none { (asked : Settings) (course : Course) (old new : Option Slots) → course.told ≡ [] →
        Keeps asked course old new → WhereTold old new (λ before after. after ≡ begin_with asked.command before) }
    ensures last_torn { (asked : Settings) (course : Course) (old new : Option Slots) (before : List SessionStep)
        (s : SessionStep) → course.told ≡ before ++ s ∷ [] → turn_after course.turn before < 2 ^ 60 →
        Tears asked course old new → Holds old new (slot_of (turn_after course.turn before))
        (checkpoint_of asked course (turn_after course.turn before) s) }
    ensures none_torn { (asked : Settings) (course : Course) (old new : Option Slots) → course.told ≡ [] →
        Tears asked course old new → WhereTold old new
        (λ before after. in_slot (other (slot_of course.turn)) after
        ≡ in_slot (other (slot_of course.turn)) (begin_with asked.command before)) }
    ensures alternate { (turn : ℕ) → other (slot_of (turn + 1)) ≡ slot_of turn }
    ensures turns { (turn : ℕ) (steps : List SessionStep) → turn + length steps ≤ 2 ^ 60 →
        turn_after turn steps ≡ turn + length steps }
{}

/// A session stores true checkpoints, if it is one of `run`, or one of `resume` that took a true checkpoint, as it does over true
/// slots. Each slot is then as it was, or empty, or holds a true checkpoint in the slot of its turn, but for the one whose store
/// failed: the slot of the turn after the last record told, or the one that `run` could not empty. After a session of `run` that
/// emptied the slots (it finished or paused, or the sink failed, or it told a record) each is empty or holds a true checkpoint, but
/// for that of the turn after the last record told, if its store failed. A true checkpoint has a turn below 2^58, and so has each
/// record told. True slots stay true slots under every session of `run` and `resume`, however it ends, if a store that failed left
/// what was there, bytes that are no checkpoint, or all of the bytes that it was given: the checkpoint of the next step.
pub fn stored_slots_hold_true_checkpoints()
    ensures stored { (table : List Call) (args : List (List ℕ)) (old new : Outside) (ending : Ending)
        (s : IsSession table args old new ending) → IsGround table s.course.bytes s.asked.budget →
        StartsTruly table s.asked.command s.asked old.vault s.course → s.asked.keep ≡ true →
        StoresTruly table s.asked s.course old new }
    ensures afresh { (table : List Call) (args : List (List ℕ)) (old new : Outside) (ending : Ending)
        (s : IsSession table args old new ending) → IsGround table s.course.bytes s.asked.budget →
        s.asked.command ≡ run → s.asked.keep ≡ true → HasBegun ending s.course →
        StoresAfresh table s.asked s.course old new }
    ensures turn { (table : List Call) (bytes : List ℕ) (budget : ℕ) → IsGround table bytes budget → (p : Checkpoint) →
        IsTrueCheckpoint table bytes budget p → p.turn < 2 ^ 58 }
    ensures early { (table : List Call) (args : List (List ℕ)) (old new : Outside) (ending : Ending)
        (s : IsSession table args old new ending) → IsGround table s.course.bytes s.asked.budget →
        StartsTruly table s.asked.command s.asked old.vault s.course →
        (before : List SessionStep) (last : SessionStep) → s.course.told ≡ before ++ last ∷ [] →
        turn_after s.course.turn before < 2 ^ 58 }
    ensures taken { (table : List Call) (asked : Settings) (held : Option Slots) (course : Course) (slots : Slots) →
        held ≡ Some slots → AreTrueSlots table course.bytes asked.budget slots →
        StartsTruly table resume asked held course }
    ensures stay { (table : List Call) (args : List (List ℕ)) (old new : Outside) (ending : Ending)
        (s : IsSession table args old new ending) (before after : Slots) →
        IsGround table s.course.bytes s.asked.budget → IsTrue (keeps s.asked.command) → old.vault ≡ Some before →
        new.vault ≡ Some after → AreTrueSlots table s.course.bytes s.asked.budget before →
        (HasRisen old.vault_faults new.vault_faults → FailsSo s.asked s.course before after) →
        AreTrueSlots table s.course.bytes s.asked.budget after }
{}

/// The text of some statements is that by the answers of the search for their needs, and back. The needs of
/// a whole script are those of its first statements.
pub fn texts_are_those_of_the_answers()
    ensures answers { (table : List Call) (budget : ℕ) (env : List Binding) (ss : List Statement) (text : List ℕ)
        (ends : Bool) → Runs table budget env ss text ends →
        (needs : List Matrix) × Needs table env ss needs
        × RunsBy table budget env ss (answers_of needs budget) text ends }
    ensures back { (table : List Call) (budget : ℕ) (env : List Binding) (ss : List Statement) (answers : List Answer)
        (text : List ℕ) (ends : Bool) → RunsBy table budget env ss answers text ends →
        (needs : List Matrix) × Needs table env ss needs
        × (answers ≡ answers_of needs budget → Runs table budget env ss text ends) }
    ensures whole { (table : List Call) (bytes : List ℕ) (ss : List Statement) (needs : List Matrix) → Reads bytes ss →
        Needs table [] ss needs → MeetsFirst table bytes needs }
{}

/// If a watcher paused the session at its last record, one that is handed back has paused more often than one
/// of those before. If none did and checkpoints are kept, each that is handed back has paused as often as one of
/// those before. (That it is the same watcher, `heard` of the contract says.)
pub fn pauses_are_those_of_watchers_handed_back()
    ensures paused { (keep : Bool) (notes : List Record) (paused : Bool) (before after : List Hearing) →
        Kept keep notes paused before after → paused ≡ true →
        (w v : Hearing) × Contains before w × Contains after v × (w.pauses < v.pauses) }
    ensures unpaused { (notes : List Record) (paused : Bool) (before after : List Hearing) →
        Kept true notes paused before after → paused ≡ false → (v : Hearing) → Contains after v →
        (w : Hearing) × Contains before w × (v.pauses ≡ w.pauses) }
{}

/// Chains of sessions leave both slots as `resume` asks for them: each holds a true checkpoint in the slot
/// of its turn, or none. Each session of a chain may have a longest round of its own.
pub fn chains_leave_true_slots()
    ensures { (table : List Call) (bytes : List ℕ) (budget : ℕ) → ChainsAreTrue table bytes budget }
{}

/// Sessions that keep their checkpoints make up chains. A `run` begins one once it emptied the slots, as it
/// did if it ended with its text, paused or told a record. A `resume` goes on with one, however it ends. If
/// a store failed, it left in its slot what was there, bytes that are no checkpoint, or all of the bytes that
/// it was given: then the session stored one step more than it told.
pub fn sessions_make_up_chains()
    ensures begins { (table : List Call) (args : List (List ℕ)) (old new : Outside) (ending : Ending)
        (s : IsSession table args old new ending) (before : Slots) → s.asked.command ≡ run → s.asked.keep ≡ true →
        old.vault ≡ Some before → HasBegun ending s.course →
        ((after : Slots) → new.vault ≡ Some after → TearsSo s.asked s.course before after) →
        GoesOn table s.course.bytes s.asked.budget new.vault }
    ensures goes_on { (table : List Call) (args : List (List ℕ)) (old new : Outside) (ending : Ending)
        (s : IsSession table args old new ending) (version : ℕ) (before : Slots) → s.asked.command ≡ resume →
        s.asked.keep ≡ true → old.vault ≡ Some before → version ≤ 2 →
        Chain table s.course.bytes s.asked.budget version before →
        ((after : Slots) → new.vault ≡ Some after → TearsSo s.asked s.course before after) →
        GoesOn table s.course.bytes s.asked.budget new.vault }
{}

/// If a session answered each need of its script by what its records and rounds settle, its text is the text
/// of the script: always if it started afresh, and if the checkpoint is true from which it resumed.
pub fn sessions_that_start_truly_print_the_text()
    ensures fresh { (table : List Call) (asked : Settings) (course : Course) → 1 ≤ asked.round →
        IsGround table course.bytes asked.budget → NoFault course.bytes → IsFresh course →
        IsNeeds table course.bytes course.needs → (rounds_of asked course).is_stopped ≡ false →
        (answers : List Answer) → Settle asked.budget course.needs (rounds_of asked course).settled answers →
        IsTextBy table asked.budget course.bytes answers course.text course.is_faulty →
        IsText table asked.budget course.bytes course.text course.is_faulty }
    ensures resumed { (table : List Call) (asked : Settings) (held : Option Slots) (course : Course) (p : Checkpoint) →
        1 ≤ asked.round → IsGround table course.bytes asked.budget → NoFault course.bytes →
        GoesOnFrom asked held course p →
        IsTrueCheckpoint table course.bytes asked.budget p → Fits asked course →
        IsNeeds table course.bytes course.needs → (rounds_of asked course).is_stopped ≡ false →
        (answers : List Answer) → Settle asked.budget course.needs (rounds_of asked course).settled answers →
        IsTextBy table asked.budget course.bytes answers course.text course.is_faulty →
        IsText table asked.budget course.bytes course.text course.is_faulty }
{}

/// A session that finishes prints the text of its script under its budget, whatever its workers, its longest round, its slice
/// and the sessions before it were: `run` always, and `resume` from a true checkpoint. So it does over slots each
/// of which is empty, holds no checkpoint or a true one, and over the slots of a chain, which are such.
pub fn finished_sessions_print_the_text()
    ensures run { (table : List Call) (args : List (List ℕ)) (old new : Outside) (n : ℕ)
        (s : IsSession table args old new (done n)) → s.asked.command ≡ run →
        PrintsText table s.asked.budget s.course.bytes old.sink new.sink n }
    ensures truly { (table : List Call) (args : List (List ℕ)) (old new : Outside) (n : ℕ)
        (s : IsSession table args old new (done n)) → StartsTruly table s.asked.command s.asked old.vault s.course →
        PrintsText table s.asked.budget s.course.bytes old.sink new.sink n }
    ensures slots_true { (table : List Call) (args : List (List ℕ)) (old new : Outside) (n : ℕ)
        (s : IsSession table args old new (done n)) (slots : Slots) → s.asked.command ≡ resume →
        old.vault ≡ Some slots → AreTrueSlots table s.course.bytes s.asked.budget slots →
        PrintsText table s.asked.budget s.course.bytes old.sink new.sink n }
    ensures resume { (table : List Call) (args : List (List ℕ)) (old new : Outside) (n : ℕ)
        (s : IsSession table args old new (done n)) (version : ℕ) (slots : Slots) → s.asked.command ≡ resume →
        IsGround table s.course.bytes s.asked.budget → old.vault ≡ Some slots →
        Chain table s.course.bytes s.asked.budget version slots →
        PrintsText table s.asked.budget s.course.bytes old.sink new.sink n }
{}
