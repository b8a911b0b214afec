//! Laws of the grammar.
ghost use Rattle.std.specs.Prelude.{◌≡◌, ℕ, ◌<◌, ◌≤◌, List, [], ◌∷◌, ◌++◌, length};
ghost use Rattle.lt_trace.specs.declared.fault.TraceFault.{TraceFault};
ghost use Rattle.lt_store.specs.declared.op.Move.{Move};
ghost use Rattle.lt_script.specs.Script.{ScriptView};
ghost use Rattle.lt_script.specs.Grammar.{deciding_bytes, header_forms, Front, IsFront, IsFaultless, IsFirstFault, Spells};
ghost use Rattle.lt_script.specs.WorkedTexts.{WorkedTexts};

/// A worked script is spelled so, and worked refusals come out so.
pub fn worked_texts()
    ensures { WorkedTexts }
{}

/// A front grows by one move.
pub fn front_grows()
    ensures { (front : Front) (m : Move) → length front.header ≡ length header_forms → IsFront front →
        IsFaultless front.moves m → IsFront (record front { moves = front.moves ++ m ∷ [] }) }
{}

/// Bytes that spell a script have no fault.
pub fn spelled_not_refused()
    ensures { (bytes : List ℕ) (script : ScriptView) (fault : TraceFault) → Spells bytes script → IsFirstFault bytes fault → ⊥ }
{}

/// Bytes spell one script at the most.
pub fn one_script()
    ensures { (bytes : List ℕ) (one other : ScriptView) → Spells bytes one → Spells bytes other → one ≡ other }
{}

/// Bytes have one first fault at the most.
pub fn one_fault()
    ensures { (bytes : List ℕ) (one other : TraceFault) → IsFirstFault bytes one → IsFirstFault bytes other → one ≡ other }
{}

/// A script has fewer bytes than decide, and of a text with as many or more the first ones decide.
pub fn first_bytes_decide()
    ensures script { (bytes : List ℕ) (script : ScriptView) → Spells bytes script → length bytes < deciding_bytes }
    ensures fault { (bytes more : List ℕ) (fault : TraceFault) → deciding_bytes ≤ length bytes → IsFirstFault bytes fault →
        IsFirstFault (bytes ++ more) fault }
{}
