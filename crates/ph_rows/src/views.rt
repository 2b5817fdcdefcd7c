//! What an operation may read.
ghost use Rattle.std.specs.Prelude.{◌≡◌, length};
ghost use Rattle.std.specs.Option.{option_copied};
ghost use Rattle.ph_rows.specs.Views.{ViewState};
ghost use Rattle.ph_rows.specs.Rows.{row_at, latest_of, newest_of, oldest_of};
ghost use Rattle.ph_rows.specs.Balances.{available_of, pending_of};

use crate::rows::Row;
use ph_base::Kind;
use ph_money::Currency;

/// The rows of a history and the time, to be read. No call takes memory.
pub trait View {
    /// The rows and the time.
    ghost state: { Self → ViewState };

    /// The time, in seconds since 1970.
    fn time(&self) -> u64
        ensures { result ≡ (state self.now).time };

    /// The number of rows.
    fn count(&self) -> u64
        ensures { result ≡ length (state self.now).rows };

    /// The row of a place; the row of an object's number is its first version. None exactly where no row has
    /// that place.
    fn row(&self, place: u64) -> Option<&Row>
        ensures { option_copied result ≡ row_at place (state self.now).rows };

    /// The last version of an object. None exactly where there is no such object.
    fn latest(&self, object: u64) -> Option<&Row>
        ensures { option_copied result ≡ latest_of object (state self.now).rows };

    /// The last version of that object of an account and kind whose number is the greatest below a bound. None
    /// exactly where no number of one is below it.
    fn newest(&self, account: u64, kind: Kind, below: u64) -> Option<&Row>
        ensures { option_copied result ≡ newest_of account kind below (state self.now).rows };

    /// The last version of that object of an account and kind whose number is the least above a bound. None
    /// exactly where no number of one is above it.
    fn oldest(&self, account: u64, kind: Kind, above: u64) -> Option<&Row>
        ensures { option_copied result ≡ oldest_of account kind above (state self.now).rows };

    /// The available balance of an account in a currency, in minor units: what its transactions moved that are
    /// available by now. It may be below 0.
    fn available(&self, account: u64, currency: Currency) -> i64
        ensures { result ≡ available_of account currency (state self.now).time (state self.now).rows };

    /// The pending balance: what its other transactions moved.
    fn pending(&self, account: u64, currency: Currency) -> i64
        ensures { result ≡ pending_of account currency (state self.now).time (state self.now).rows };
}
