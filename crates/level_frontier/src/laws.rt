// The laws of the frontier.
ghost use Rattle.std.specs.Prelude.{◌≡◌, ℕ, ◌+◌, ◌*◌, ◌<◌, ◌≤◌, List, length, slice_index_or};
ghost use Rattle.link_limits.specs.declared.TheConstants.{WHOLE_RULE};
ghost use Rattle.link_base.specs.declared.rule.RuleCell.{RuleCell};
ghost use Rattle.link_base.specs.declared.shares.FieldShares.{FieldShares};
ghost use Rattle.patterns.specs.Patterns.{m_of, u_of};
ghost use Rattle.decision_rule.specs.Rule.{Rule, possible_of, possible_m_of, possible_u_of};
ghost use Rattle.decision_rule.specs.Filled.{IsFilled, sum_over};
ghost use Rattle.level_frontier.specs.Frontier.{IsWithinAsked};
ghost use Rattle.level_frontier.specs.Borders.{slack_m_of, slack_u_of};

/// No randomised rule at the asked levels has a chance of a possible link that is lower than that of the filled table
/// by more than one 65,536th of each border pattern, and a higher asked level of links leaves no cell a greater possible
/// share.
pub fn filled_levels()
    ensures matched { (shares : List FieldShares) (mu_ppm lambda_ppm : ℕ) (cells : List RuleCell)
        → IsFilled shares mu_ppm lambda_ppm cells
        → (denominator : ℕ) (rule : Rule) → IsWithinAsked shares mu_ppm lambda_ppm denominator rule
        → denominator * possible_m_of cells
        ≤ WHOLE_RULE * sum_over shares (m_of shares) rule.possible + denominator * slack_m_of cells }
    ensures unmatched { (shares : List FieldShares) (mu_ppm lambda_ppm : ℕ) (cells : List RuleCell)
        → IsFilled shares mu_ppm lambda_ppm cells
        → (denominator : ℕ) (rule : Rule) → IsWithinAsked shares mu_ppm lambda_ppm denominator rule
        → denominator * possible_u_of cells
        ≤ WHOLE_RULE * sum_over shares (u_of shares) rule.possible + denominator * slack_u_of cells }
    ensures falling { (shares : List FieldShares) (mu_ppm more_ppm lambda_ppm : ℕ) (cells others : List RuleCell)
        → mu_ppm ≤ more_ppm
        → IsFilled shares mu_ppm lambda_ppm cells → IsFilled shares more_ppm lambda_ppm others
        → (k : ℕ) (d : RuleCell) → k < length cells
        → possible_of (slice_index_or others k d) ≤ possible_of (slice_index_or cells k d) }
{}
