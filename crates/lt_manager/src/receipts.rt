//! Receipts of deeds.
ghost use Rattle.std.specs.Prelude.{◌≡◌};

use lt_seq::{Deed, Event, Receipt};

/// The receipt of a deed.
pub(crate) fn receipt(place: u64, pass: u32, txn: u64, deed: Deed) -> Receipt
    ensures { result ≡ record { place = place; event = record { pass = pass; txn = txn; deed = deed } } }
{
    Receipt {
        place,
        event: Event { pass, txn, deed },
    }
}
