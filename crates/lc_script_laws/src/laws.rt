ghost use Rattle.std.specs.Prelude.{◌≡◌, ◌-◌, ◌*◌, ◌/◌, ◌<◌, ◌≤◌, ◌^◌, ◌⊎◌, ◌++◌, ℕ, Bool, true, IsTrue, List, [], ◌∷◌, length, All, Option, Some, slice_get};
ghost use Rattle.lc_algebra.specs.Field.{size};
ghost use Rattle.lc_algebra.specs.Divisor.{divisor_of};
ghost use Rattle.lc_enumeration.specs.Search.{Found, exact, set_count, answer};
ghost use Rattle.lc_algebra.specs.Matrix.{Matrix};
ghost use Rattle.lc_enumeration.specs.Truth.{AnswerHolds};
ghost use Rattle.lc_enumeration.specs.Records.{SessionStep};
ghost use Rattle.lc_formats.specs.Checkpoint.{Checkpoint};
ghost use Rattle.lc_io.specs.Outside.{HasRisen};
ghost use Rattle.lc_io.specs.Vaults.{Slots};
ghost use Rattle.lc_language.specs.declared.Call.{Call};
ghost use Rattle.lc_language.specs.Query.{QueryKind, distance, by_levels, by_scan, query_line, distribution_line, near_line};
ghost use Rattle.lc_grammar.specs.Tree.{Statement};
ghost use Rattle.lc_language.specs.Value.{Binding};
ghost use Rattle.lc_language.specs.Evaluation.{Steps, prints, IsText};
ghost use Rattle.lc_calls.specs.Built.{built_calls};
ghost use Rattle.lc_session_rules.specs.Options.{run, resume};
ghost use Rattle.lc_session_rules.specs.Needs.{IsNeeds, MeetsFirst};
ghost use Rattle.lc_session_rules.specs.Nears.{NearQuery, AreNears, NearsHold};
ghost use Rattle.lc_session_rules.specs.Slots.{turn_after, IsTrueCheckpoint, AreTrueSlots};
ghost use Rattle.lc_session_rules.specs.Endings.{Ending, done};
ghost use Rattle.lc_session_rules.specs.Session.{Outside, most_bytes, keeps, IsSession};
ghost use Rattle.lc_session_rules.specs.Promises.{PrintsText, StartsTruly, StoresTruly, StoresAfresh, FailsSo};
ghost use Rattle.lc_session_rules.specs.Chain.{Chain, IsGround, HasBegun};
ghost use Rattle.lc_certify.specs.Accepted.{SaysNone, IsAcceptedFor};
ghost use Rattle.lc_script_laws.specs.Certified.{IsReached, IsFormQuery, IsCertified};
ghost use Rattle.lc_script_laws.specs.Counted.{AreCounted};
ghost use Rattle.lc_script_laws.specs.Printed.{Piece, pieces_text, codes_in, counted_in, nears_in, StatesDistance, StatesDistribution, IsTrueLine, IsTruePiece};
ghost use Rattle.lc_script_laws.specs.Nearest.{StatesNearest, IsTrueNear};
ghost use Rattle.lc_script_laws.specs.Shapes.{IsCodeOfRows};

/// Bytes print at most one text: whatever satisfies the definition of the text of a script is the same text,
/// and ends in a fault or not alike. So what a session writes is determined by the script alone.
pub fn one_text()
    ensures { (budget : ℕ) (bytes text other : List ℕ) (ends end : Bool) → IsText built_calls budget bytes text ends →
        IsText built_calls budget bytes other end → (text ≡ other) × (ends ≡ end) }
{}

/// Each code that a script searches is over a field of at most 16 elements and has a length of at most 255, and its rows are its
/// reduced generator matrix.
pub fn needs_are_codes()
    ensures { (table : List Call) (bytes : List ℕ) (needs : List Matrix) → MeetsFirst table bytes needs →
        (i : ℕ) (C : Matrix) → slice_get needs i ≡ Some C → IsCodeOfRows C }
{}

/// What a script prints for a certificate is accepted. For each code that a script searches, under every budget, the line that
/// `Certificate` prints of it, and the one that `ScanCertificate` prints, either says that there is no certificate, or `check` answers
/// to it that it is accepted, with the minimum distance of the code. A code without rows isn't searched: its line says that there is
/// none.
pub fn scripts_print_accepted_certificates()
    ensures levels { (table : List Call) (bytes : List ℕ) (needs : List Matrix) → MeetsFirst table bytes needs →
        (i : ℕ) (C : Matrix) → slice_get needs i ≡ Some C → (budget : ℕ) →
        SaysNone (query_line by_levels C budget) ⊎ IsAcceptedFor C (query_line by_levels C budget) }
    ensures scan { (table : List Call) (bytes : List ℕ) (needs : List Matrix) → MeetsFirst table bytes needs →
        (i : ℕ) (C : Matrix) → slice_get needs i ≡ Some C → (budget : ℕ) →
        SaysNone (query_line by_scan C budget) ⊎ IsAcceptedFor C (query_line by_scan C budget) }
    ensures none { (C : Matrix) (budget : ℕ) → length C.rows ≡ 0 →
        SaysNone (query_line by_levels C budget) × SaysNone (query_line by_scan C budget) }
{}

/// What `AlternantCertificate` prints in a script is accepted. Wherever a script comes to such a statement that prints a line, the line
/// is that of the certificate of an alternant form of the code, for the word that it is asked for. The certificate is valid, and
/// `check` answers to the line that it is accepted, with the minimum distance of the code, which is r + 1.
pub fn printed_forms_are_accepted()
    ensures { (table : List Call) (bytes : List ℕ) (env : List Binding) (s : Statement) (text : List ℕ) →
        IsReached table bytes env s → IsFormQuery table s → Steps table env s (prints text) →
        IsCertified table env s text }
{}

/// What a script prints of its searches is true. Its text is made of pieces, of which those of its queries on codes are, in their
/// order, the lines of the codes that it searches, under its budget, the weight distributions those of the codes that it counts, and
/// what it prints for nearest words that of its queries for these.
/// The line of a query states the minimum distance of the code and a word of
/// it that has this weight; or two numbers between which the minimum distance lies, and a word that has the greater weight; or it is
/// a certificate of which `check` answers that it is accepted, with the minimum distance; or it says that there is no certificate,
/// with two such numbers, or since it costs too much or is too long. Under every budget the answers for these codes are true.
pub fn printed_answers_are_true()
    ensures text { (table : List Call) (budget : ℕ) (bytes text : List ℕ) (ends : Bool) →
        IsText table budget bytes text ends →
        (pieces : List Piece) × (text ≡ pieces_text budget pieces) × IsNeeds table bytes (codes_in pieces)
        × AreCounted table bytes (counted_in pieces) × AreNears table bytes (nears_in pieces)
        × All (IsTruePiece budget) pieces }
    ensures line { (table : List Call) (bytes : List ℕ) (needs : List Matrix) → MeetsFirst table bytes needs →
        (i : ℕ) (C : Matrix) → slice_get needs i ≡ Some C → (kind : QueryKind) (budget : ℕ) →
        IsTrueLine kind C budget (query_line kind C budget) }
    ensures truth { (table : List Call) (bytes : List ℕ) (needs : List Matrix) (budget : ℕ) →
        MeetsFirst table bytes needs → All (λ C. AnswerHolds C (answer (divisor_of C) C budget)) needs }
{}

/// What a script prints for a weight distribution is true. Of each code that a script counts it prints a number for each weight from 0
/// to the length: as many different words of the code have this weight, and no more. The numbers are q^k together, for a code of
/// dimension k over q elements.
pub fn printed_distributions_are_true()
    ensures { (table : List Call) (bytes : List ℕ) (codes : List Matrix) → AreCounted table bytes codes
        → All (λ C. StatesDistribution C (distribution_line C)) codes }
{}

/// What a script prints for a nearest word is true, under every budget. The line of a query states a word of the code and its distance
/// from the given word, and no word of the code is nearer; or it states the blocks of the budget, a word of the code with its distance,
/// and a number such that no word of the code is nearer than that. So the least distance lies between the two numbers. If the budget is
/// at least m q^k blocks and at most 2^40, for a code of dimension k over q elements with m information sets, it states a nearest word.
pub fn printed_nearest_words_are_true()
    ensures holds { (table : List Call) (bytes : List ℕ) (budget : ℕ) → NearsHold table bytes budget }
    ensures line { (table : List Call) (bytes : List ℕ) (queries : List NearQuery) (budget : ℕ) →
        AreNears table bytes queries → All
        (λ q. IsTrueNear q.code q.word budget (near_line q.code q.word budget)) queries }
    ensures large { (table : List Call) (bytes : List ℕ) (queries : List NearQuery) (budget : ℕ) →
        AreNears table bytes queries → All
        (λ q. set_count q.code * size q.code.field ^ length q.code.rows ≤ budget → budget ≤ 2 ^ 40 →
        StatesNearest q.code q.word (near_line q.code q.word budget)) queries }
{}

/// If the budget is at least m (q^k - 1)/(q - 1) blocks and at most 2^40, for a code of dimension k over q elements with m information
/// sets, the answer of its search is exact: `MinimumDistance` prints its minimum distance, and a word of the code that has it.
pub fn large_budgets_answer_exactly()
    ensures answer { (table : List Call) (bytes : List ℕ) (needs : List Matrix) → MeetsFirst table bytes needs →
        (i : ℕ) (C : Matrix) → slice_get needs i ≡ Some C → (budget : ℕ) →
        set_count C * ((size C.field ^ length C.rows - 1) / (size C.field - 1)) ≤ budget → budget ≤ 2 ^ 40 →
        (x : Found) × (l : ℕ) × (answer (divisor_of C) C budget ≡ exact x l) }
    ensures line { (table : List Call) (bytes : List ℕ) (needs : List Matrix) → MeetsFirst table bytes needs →
        (i : ℕ) (C : Matrix) → slice_get needs i ≡ Some C → (budget : ℕ) →
        set_count C * ((size C.field ^ length C.rows - 1) / (size C.field - 1)) ≤ budget → budget ≤ 2 ^ 40 →
        StatesDistance C (query_line distance C budget) }
{}

/// What the laws of chains rest on holds of every script of at most 2^20 bytes, and every budget of at most 2^40 blocks: bytes are one
/// script, a statement does one thing, each need is a code with rows, there are fewer than 2^17 of them, and a true checkpoint is read
/// back from its text.
pub fn scripts_are_ground()
    ensures { (bytes : List ℕ) (budget : ℕ) → length bytes ≤ most_bytes → budget ≤ 2 ^ 40 →
        IsGround built_calls bytes budget }
{}

/// Sessions that are stopped and resumed print the text of their script. Every chain of sessions over the two slots of a vault leaves
/// them as `resume` asks for them; and a session of `resume` over the slots of a chain that finishes prints the text of the script
/// under its budget, whatever the workers, slices and endings of the sessions before it were. So does one over slots each of which is
/// empty, holds no checkpoint, or a true one in the slot of its turn. Such slots stay such under every session of `run` and `resume`,
/// however it ends, if a store that failed left what was there, bytes that are no checkpoint, or all of the bytes that it was given:
/// the checkpoint of the next step. A session of `run` that finishes prints it over any slots.
pub fn chains_print_the_text()
    ensures slots { (bytes : List ℕ) (budget : ℕ) → length bytes ≤ most_bytes → budget ≤ 2 ^ 40 →
        (version : ℕ) (slots : Slots) → Chain built_calls bytes budget version slots →
        AreTrueSlots built_calls bytes budget slots }
    ensures run { (args : List (List ℕ)) (old new : Outside) (n : ℕ) (s : IsSession built_calls args old new (done n)) →
        s.asked.command ≡ run → PrintsText built_calls s.asked.budget s.course.bytes old.sink new.sink n }
    ensures slots_true { (args : List (List ℕ)) (old new : Outside) (n : ℕ)
        (s : IsSession built_calls args old new (done n)) (slots : Slots) → s.asked.command ≡ resume →
        old.vault ≡ Some slots → AreTrueSlots built_calls s.course.bytes s.asked.budget slots →
        PrintsText built_calls s.asked.budget s.course.bytes old.sink new.sink n }
    ensures stay { (args : List (List ℕ)) (old new : Outside) (ending : Ending)
        (s : IsSession built_calls args old new ending) (before after : Slots) → IsTrue (keeps s.asked.command) →
        old.vault ≡ Some before → new.vault ≡ Some after →
        AreTrueSlots built_calls s.course.bytes s.asked.budget before →
        (HasRisen old.vault_faults new.vault_faults → FailsSo s.asked s.course before after) →
        AreTrueSlots built_calls s.course.bytes s.asked.budget after }
    ensures resume { (args : List (List ℕ)) (old new : Outside) (n : ℕ)
        (s : IsSession built_calls args old new (done n)) (version : ℕ) (slots : Slots) → s.asked.command ≡ resume →
        old.vault ≡ Some slots → Chain built_calls s.course.bytes s.asked.budget version slots →
        PrintsText built_calls s.asked.budget s.course.bytes old.sink new.sink n }
{}

/// Sessions of scripts store true checkpoints. After a session of `run`, or of `resume` that took a true checkpoint, each slot is as it
/// was, or empty, or holds a true checkpoint in the slot of its turn, but for the one whose store failed: the slot of the turn after
/// the last record told, or the one that `run` could not empty. After a session of `run` that emptied the slots (it finished or
/// paused, or the sink failed, or it told a record) each is empty or holds a true checkpoint, but for that of the turn after the last
/// record told, if its store failed. A true checkpoint has a turn below 2^58, and so has each record told.
pub fn stored_slots_hold_true_checkpoints()
    ensures stored { (args : List (List ℕ)) (old new : Outside) (ending : Ending)
        (s : IsSession built_calls args old new ending) →
        StartsTruly built_calls s.asked.command s.asked old.vault s.course → s.asked.keep ≡ true →
        StoresTruly built_calls s.asked s.course old new }
    ensures afresh { (args : List (List ℕ)) (old new : Outside) (ending : Ending)
        (s : IsSession built_calls args old new ending) → s.asked.command ≡ run → s.asked.keep ≡ true →
        HasBegun ending s.course → StoresAfresh built_calls s.asked s.course old new }
    ensures turn { (bytes : List ℕ) (budget : ℕ) → length bytes ≤ most_bytes → budget ≤ 2 ^ 40 → (p : Checkpoint) →
        IsTrueCheckpoint built_calls bytes budget p → p.turn < 2 ^ 58 }
    ensures early { (args : List (List ℕ)) (old new : Outside) (ending : Ending)
        (s : IsSession built_calls args old new ending) →
        StartsTruly built_calls s.asked.command s.asked old.vault s.course →
        (before : List SessionStep) (last : SessionStep) → s.course.told ≡ before ++ last ∷ [] →
        turn_after s.course.turn before < 2 ^ 58 }
{}
