//! Laws of the grammar: a text has one derivation, and a machine with a stack reads exactly the texts of the grammar.
ghost use Rattle.std.specs.Prelude.{◌≡◌, ◌≢◌, ℕ, List, [], ◌∷◌, ◌↔◌, Bool, false, Some, IfErr};
ghost use Rattle.expr_tokens.specs.Tokens.{Token, Placed};
ghost use Rattle.expr_grammar.specs.declared.fault.ExprCause.{ExprCause};
ghost use Rattle.expr_grammar.specs.declared.symbol.Symbol.TheVariants as wait;
ghost use Rattle.expr_grammar.specs.declared.symbol.Built.{Built};
ghost use Rattle.expr_grammar.specs.declared.symbol.Built.TheVariants as built;
ghost use Rattle.expr_grammar.specs.Answers.{expr_answer, ref_answer, assign_answer, switch_answer, command_answer};
ghost use Rattle.expr_grammar.specs.CommandScopes.{ServesCommands};
ghost use Rattle.expr_grammar.specs.Fitting.{FitsExpr, FitsRef, FitsCommand};
ghost use Rattle.expr_grammar.specs.Grammar.{Syntax, expr, Ref, Command, spell, spell_ref, spell_command};
ghost use Rattle.expr_grammar.specs.Faults.{CanGoOn, IsFirstFault};
ghost use Rattle.expr_grammar.specs.Languages.{exprs, refs, assigns, switches, commands};
ghost use Rattle.expr_grammar.specs.declared.words.FieldUse.TheVariants.{Assigned};
ghost use Rattle.expr_grammar.specs.declared.words.TypeUse.TheVariants.{Switched};
ghost use Rattle.expr_grammar.specs.Machine.{State, run, steps};
ghost use Rattle.expr_grammar.specs.Meaning.{meaning, meaning_ref, meaning_command};
ghost use Rattle.expr_grammar.specs.Stops.{Stops};
ghost use Rattle.expr_grammar.specs.Readings.{ReadsText};
ghost use Rattle.expr_grammar.specs.Scopes.{Scope, IsLawful};

/// A list of tokens has at most one derivation as an expression, and at most one as a reference.
pub fn one_derivation()
    ensures exprs { (s : Scope) → IsLawful s → (limit : ℕ) (x y : Syntax expr) → FitsExpr s limit 0 x → FitsExpr s limit 0 y → spell x [] ≡ spell y [] → x ≡ y }
    ensures refs { (s : Scope) → IsLawful s → (made : Bool) (x y : Ref) → FitsRef s made x → FitsRef s made y → spell_ref x [] ≡ spell_ref y [] → x ≡ y }
{}

/// The machine builds what a derivation means, and accepts only tokens that have a derivation.
pub fn machine_reads_the_grammar()
    ensures builds { (s : Scope) → IsLawful s → (limit : ℕ) (e : Syntax expr) → FitsExpr s limit 0 e →
        run s limit (wait.Level 5 0 ∷ []) [] (spell e []) ≡ Some (built.Int (meaning e) ∷ []) }
    ensures reads { (s : Scope) → IsLawful s → (limit : ℕ) (ts : List Token) (ws : List Built) → run s limit (wait.Level 5 0 ∷ []) [] ts ≡ Some ws →
        ((e : Syntax expr) × FitsExpr s limit 0 e × (spell e [] ≡ ts) × (ws ≡ built.Int (meaning e) ∷ [])) }
    ensures builds_refs { (s : Scope) → IsLawful s → (limit : ℕ) (r : Ref) (made : Bool) → FitsRef s made r →
        run s limit (wait.Ref made ∷ []) [] (spell_ref r []) ≡ Some (built.Ref (meaning_ref r) ∷ []) }
    ensures reads_refs { (s : Scope) → IsLawful s → (limit : ℕ) (made : Bool) (ts : List Token) (ws : List Built) → run s limit (wait.Ref made ∷ []) [] ts ≡ Some ws →
        ((r : Ref) × FitsRef s made r × (spell_ref r [] ≡ ts) × (ws ≡ built.Ref (meaning_ref r) ∷ [])) }
{}

/// The machine builds what the one derivation of a command means, and accepts only tokens that have a derivation. It
/// stops at the first fault.
pub fn machine_reads_commands()
    ensures builds { (s : Scope) → IsLawful s → ServesCommands s → (limit : ℕ) (c : Command) → FitsCommand s limit c →
        run s limit (wait.Verb ∷ []) [] (spell_command c) ≡ Some (built.Command (meaning_command c) ∷ []) }
    ensures reads { (s : Scope) → IsLawful s → ServesCommands s → (limit : ℕ) (ts : List Token) (ws : List Built) → run s limit (wait.Verb ∷ []) [] ts ≡ Some ws →
        ((c : Command) × FitsCommand s limit c × (spell_command c ≡ ts)) }
    ensures one { (s : Scope) → IsLawful s → ServesCommands s → (limit : ℕ) (x y : Command) → FitsCommand s limit x → FitsCommand s limit y → spell_command x ≡ spell_command y → x ≡ y }
    ensures faults { (s : Scope) → IsLawful s → ServesCommands s → (limit : ℕ) (tokens : List Placed) (end : ℕ) (cause : ExprCause) (at : ℕ) →
        Stops s limit (wait.Verb ∷ []) tokens end cause at → IsFirstFault (commands s) limit tokens end cause at }
{}

/// The machine takes some tokens if and only if a text of the grammar begins with them. So it stops at the first token
/// after which no text can follow.
pub fn goes_on_with_the_grammar()
    ensures exprs { (s : Scope) → IsLawful s → (limit : ℕ) (front : List Token) →
        CanGoOn (exprs s) limit front ↔ ((st : State) × (steps s limit (record { waits = wait.Level 5 0 ∷ []; built = [] }) front ≡ Some st)) }
    ensures refs { (s : Scope) → IsLawful s → (limit : ℕ) (front : List Token) →
        CanGoOn (refs s) limit front ↔ ((st : State) × (steps s limit (record { waits = wait.Ref false ∷ []; built = [] }) front ≡ Some st)) }
{}

/// The machine stops at the first fault of the text, and the next token has its cause.
pub fn stops_at_the_first_fault()
    ensures exprs { (s : Scope) → IsLawful s → (limit : ℕ) (tokens : List Placed) (end : ℕ) (cause : ExprCause) (at : ℕ) →
        Stops s limit (wait.Level 5 0 ∷ []) tokens end cause at → IsFirstFault (exprs s) limit tokens end cause at }
    ensures refs { (s : Scope) → IsLawful s → (limit : ℕ) (tokens : List Placed) (end : ℕ) (cause : ExprCause) (at : ℕ) →
        Stops s limit (wait.Ref false ∷ []) tokens end cause at → IsFirstFault (refs s) limit tokens end cause at }
    ensures assigns { (s : Scope) → IsLawful s → (limit : ℕ) (tokens : List Placed) (end : ℕ) (cause : ExprCause) (at : ℕ) →
        Stops s limit (wait.TypeField Assigned ∷ []) tokens end cause at → IsFirstFault (assigns s) limit tokens end cause at }
    ensures switches { (s : Scope) → IsLawful s → (limit : ℕ) (tokens : List Placed) (end : ℕ) (cause : ExprCause) (at : ℕ) →
        Stops s limit (wait.Type Switched ∷ wait.Becomes ∷ wait.Level 5 0 ∷ []) tokens end cause at → IsFirstFault (switches s) limit tokens end cause at }
{}

/// Each text has one result, which follows from the grammar: what the text means, or its first fault. The fault is never
/// that memory ran out.
pub fn texts_are_answered_by_the_grammar()
    ensures exprs { (s : Scope) → IsLawful s → (text : List ℕ) →
        ReadsText (exprs s) text (expr_answer s text) × IfErr (expr_answer s text) (λ f. f.cause ≢ ExprCause.Memory) }
    ensures refs { (s : Scope) → IsLawful s → (text : List ℕ) →
        ReadsText (refs s) text (ref_answer s text) × IfErr (ref_answer s text) (λ f. f.cause ≢ ExprCause.Memory) }
    ensures assigns { (s : Scope) → IsLawful s → (text : List ℕ) →
        ReadsText (assigns s) text (assign_answer s text) × IfErr (assign_answer s text) (λ f. f.cause ≢ ExprCause.Memory) }
    ensures switches { (s : Scope) → IsLawful s → (text : List ℕ) →
        ReadsText (switches s) text (switch_answer s text) × IfErr (switch_answer s text) (λ f. f.cause ≢ ExprCause.Memory) }
    ensures commands { (s : Scope) → IsLawful s → ServesCommands s → (text : List ℕ) →
        ReadsText (commands s) text (command_answer s text) × IfErr (command_answer s text) (λ f. f.cause ≢ ExprCause.Memory) }
{}
