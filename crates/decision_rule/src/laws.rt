// The laws of the exchange, of the filled rule and of tables in cut form (Fellegi and Sunter 1969, section 2).
ghost use Rattle.std.specs.Prelude.{◌≡◌, ℕ, ◌*◌, ◌≤◌, List};
ghost use Rattle.link_limits.specs.declared.TheConstants.{WHOLE_RULE};
ghost use Rattle.link_base.specs.declared.rule.RuleCell.{RuleCell};
ghost use Rattle.link_base.specs.declared.shares.FieldShares.{FieldShares};
ghost use Rattle.decision_rule.specs.Rule.{Rule, IsRuleOver, mu_of, lambda_of, possible_m_of, possible_u_of, rule_mu, rule_lambda, rule_possible_m, rule_possible_u};
ghost use Rattle.decision_rule.specs.Exchange.{IsCutForm};
ghost use Rattle.decision_rule.specs.Filled.{IsFilled, IsLeast};

/// No rule whose levels are at most those of a table in cut form has a lower chance of a possible link.
pub fn exchange()
    ensures matched { (cells : List RuleCell) (i j : ℕ) → IsCutForm cells i j → (denominator : ℕ) (rule : Rule)
        → IsRuleOver denominator cells rule
        → WHOLE_RULE * rule_mu rule cells ≤ denominator * mu_of cells
        → WHOLE_RULE * rule_lambda rule cells ≤ denominator * lambda_of cells
        → denominator * possible_m_of cells ≤ WHOLE_RULE * rule_possible_m rule cells }
    ensures unmatched { (cells : List RuleCell) (i j : ℕ) → IsCutForm cells i j → (denominator : ℕ) (rule : Rule)
        → IsRuleOver denominator cells rule
        → WHOLE_RULE * rule_mu rule cells ≤ denominator * mu_of cells
        → WHOLE_RULE * rule_lambda rule cells ≤ denominator * lambda_of cells
        → denominator * possible_u_of cells ≤ WHOLE_RULE * rule_possible_u rule cells }
{}

/// A filled table is least: among all randomised rules of every denominator whose levels are at most its own, none has
/// a lower chance of a possible link, among matched or among unmatched pairs. At most one table is filled for given shares
/// and levels, and it is in cut form.
pub fn filled()
    ensures least { (shares : List FieldShares) (mu_ppm lambda_ppm : ℕ) (cells : List RuleCell)
        → IsFilled shares mu_ppm lambda_ppm cells → IsLeast shares cells }
    ensures one { (shares : List FieldShares) (mu_ppm lambda_ppm : ℕ) (xs ys : List RuleCell)
        → IsFilled shares mu_ppm lambda_ppm xs → IsFilled shares mu_ppm lambda_ppm ys → xs ≡ ys }
    ensures cut_form { (shares : List FieldShares) (mu_ppm lambda_ppm : ℕ) (cells : List RuleCell)
        → IsFilled shares mu_ppm lambda_ppm cells → (i : ℕ) × (j : ℕ) × IsCutForm cells i j }
{}
