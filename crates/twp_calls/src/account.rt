ghost use Rattle.std.specs.Prelude.{◌≡◌};
ghost use Rattle.twp_calls.specs.Calls.{account_of};

use twp_plat::Account;

/// The account that a number stands for.
pub(crate) fn account_of(code: u32) -> Option<Account>
    ensures { result ≡ account_of code }
{
    match code {
        0 => Some(Account::Exact),
        1 => Some(Account::Plat),
        _ => None,
    }
}
