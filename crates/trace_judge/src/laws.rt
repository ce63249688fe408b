//! What holds for the definitions alone, as contracts.

ghost use Rattle.std.specs.Prelude.{◌≡◌, ◌≢◌, ◌⊎◌, ℕ, List, Ok, Err};
ghost use Rattle.exchange_text.specs.declared.fault.ExchangeFault.{ExchangeFault as AnyFault};
ghost use Rattle.exchange_text.specs.declared.fault.ExchangeFault.TheVariants.{Memory};
ghost use Rattle.trace_judge.specs.Judging.{Judges};
ghost use Rattle.trace_judge.specs.declared.standing.Judgment.{Judgment as AnyJudgment};
ghost use Rattle.trace_judge.specs.declared.standing.Scope.{Scope as AnyScope};
ghost use Rattle.judge_times.specs.Waiting.{Offered};

/// The text of a trace has one judgment or one fault, and no other result except out of memory.
pub fn one_judgment()
    ensures some { (offered : Offered) (scope : AnyScope) (text : List ℕ)
        → ((judgment : AnyJudgment) × Judges offered scope text (Ok judgment))
        ⊎ ((fault : AnyFault) × (fault ≢ Memory) × Judges offered scope text (Err fault)) }
    ensures one { (offered : Offered) (scope : AnyScope) (text : List ℕ)
        (judgment other : AnyJudgment)
        → Judges offered scope text (Ok judgment) → Judges offered scope text (Ok other)
        → (judgment.text ≡ other.text) × (judgment.is_ok ≡ other.is_ok) }
    ensures fault { (offered : Offered) (scope : AnyScope) (text : List ℕ) (fault other : AnyFault)
        → fault ≢ Memory → other ≢ Memory → Judges offered scope text (Err fault)
        → Judges offered scope text (Err other) → fault ≡ other }
    ensures apart { (offered : Offered) (scope : AnyScope) (text : List ℕ) (judgment : AnyJudgment)
        (fault : AnyFault) → fault ≢ Memory → Judges offered scope text (Ok judgment)
        → Judges offered scope text (Err fault) → ⊥ }
{}
