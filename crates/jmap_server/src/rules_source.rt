// Where each account of a server gets its rules from.
ghost use Rattle.std.specs.Prelude.{◌≡◌};

use account_book::Rules;

/// Gives each account its rules, which are the same for all.
pub trait RulesSource: Drop {
    type Rules: Rules;

    /// The rules of the accounts.
    ghost rules: { Self → Self.Rules };

    /// Returns the rules for an account.
    fn rules(&self) -> Self::Rules
        ensures { result ≡ rules self.now };
}
