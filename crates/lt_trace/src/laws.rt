//! Laws of the grammar.
ghost use Rattle.std.specs.Prelude.{◌≡◌, ℕ, ◌<◌, ◌≤◌, List, [], ◌∷◌, ◌++◌, length};
ghost use Rattle.lt_trace.specs.declared.fault.TraceFault.{TraceFault};
ghost use Rattle.lt_trace.specs.declared.line.Line.{Line};
ghost use Rattle.lt_trace.specs.FaultRows.{FaultRows};
ghost use Rattle.lt_trace.specs.Generator.{generated};
ghost use Rattle.lt_trace.specs.GeneratorRows.{GeneratorRows};
ghost use Rattle.lt_trace.specs.Trace.{TraceView};
ghost use Rattle.lt_trace.specs.Grammar.{deciding_bytes, Front, IsFront, IsFaultless, IsFirstFault, IsTrace, Spells, header_forms};

/// Worked refusals come out so.
pub fn fault_rows()
    ensures { FaultRows }
{}

/// A front grows by one line.
pub fn front_grows()
    ensures { (front : Front) (line : Line) → length front.header ≡ length header_forms → IsFront front →
        IsFaultless front.header front.lines line → IsFront (record front { lines = front.lines ++ line ∷ [] }) }
{}

/// Bytes that spell a trace have no fault.
pub fn spelled_not_refused()
    ensures { (bytes : List ℕ) (trace : TraceView) (fault : TraceFault) → Spells bytes trace → IsFirstFault bytes fault → ⊥ }
{}

/// Bytes spell one trace at the most.
pub fn one_trace()
    ensures { (bytes : List ℕ) (one other : TraceView) → Spells bytes one → Spells bytes other → one ≡ other }
{}

/// Bytes have one first fault at the most.
pub fn one_fault()
    ensures { (bytes : List ℕ) (one other : TraceFault) → IsFirstFault bytes one → IsFirstFault bytes other → one ≡ other }
{}

/// A trace has fewer bytes than decide, and of a text with as many or more the first ones decide.
pub fn first_bytes_decide()
    ensures trace { (bytes : List ℕ) (trace : TraceView) → Spells bytes trace → length bytes < deciding_bytes }
    ensures fault { (bytes more : List ℕ) (fault : TraceFault) → deciding_bytes ≤ length bytes → IsFirstFault bytes fault →
        IsFirstFault (bytes ++ more) fault }
{}

/// Worked draws of the generator, and a worked trace, come out so.
pub fn generator_rows()
    ensures { GeneratorRows }
{}

/// What the generator makes is a trace: it has a spelling, and has no fault.
pub fn generated_traces()
    ensures { (seed txns lines : ℕ) → 1 ≤ txns → txns ≤ 1024 → lines ≤ 64512 → IsTrace (generated seed txns lines) }
{}
