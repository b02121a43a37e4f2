// What the plain rules come to, on a history that is legal. Each of these functions does nothing.
ghost use Rattle.std.specs.Prelude.{◌≡◌, ◌≢◌, ◌↔◌, List, is_none};
ghost use Rattle.std.specs.List.{All};
ghost use Rattle.aid_types.specs.declared.number.Key.{Key};
ghost use Rattle.aid_filings.specs.declared.filing.Filing.{Filing};
ghost use Rattle.office_history.specs.Answer.{IsLegal, breaks};
ghost use Rattle.office_history.specs.Past.{key_at};
ghost use Rattle.run_claims.specs.Rules.{AreAdmitted, may_follow};

/// After a legal history, a filing may follow by the plain test exactly where it breaks no numbered rule.
pub fn may_follow_is_rules()
    ensures { (past : List Filing) (f : Filing) → IsLegal past → may_follow past f ≡ is_none (breaks past f) }
{}

/// The office finds no place for a key exactly where no filing has it.
pub fn keys_differ()
    ensures { (key : Key) (past : List Filing) → (key_at key past ≡ 0) ↔ All (λ g. g.key ≢ key) past }
{}

/// A history that is admitted by the plain test, each filing after those before it, is legal.
pub fn admitted_is_legal()
    ensures { (past : List Filing) → AreAdmitted past → IsLegal past }
{}

/// A legal history is admitted by the plain test, each filing after those before it.
pub fn legal_is_admitted()
    ensures { (past : List Filing) → IsLegal past → AreAdmitted past }
{}
