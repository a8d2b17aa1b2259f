// Checks as values: what a rule that is kept or broken answers.
ghost use Rattle.std.specs.Prelude.{◌≡◌};
ghost use Rattle.rules.specs.Refusals.{refuse_if, refuse_unless};
ghost use Rattle.laws.specs.Checking.{checked_by};

use rules::{Refusal, Rule};

pub fn refuse_if(broken: bool, rule: Rule, value: usize) -> Result<(), Refusal>
    ensures { result ≡ checked_by (refuse_if broken rule value) }
{
    if broken {
        return Err(Refusal::new(rule, value));
    }
    Ok(())
}

pub fn refuse_unless(kept: bool, rule: Rule, value: usize) -> Result<(), Refusal>
    ensures { result ≡ checked_by (refuse_unless kept rule value) }
{
    if kept {
        return Ok(());
    }
    Err(Refusal::new(rule, value))
}
